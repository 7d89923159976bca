// The laws of the definitions. Each function's contract is one of them.
ghost use Rattle.paths.specs.Memory.{ArrivalWriteLaw, LinkMemoryLaw, NoPlaceLaw, PlaceLaw, StepRecordLaw};
ghost use Rattle.paths.specs.Pairs.{PairLaw};
ghost use Rattle.paths.specs.Runs.{BalanceLaw, DeterminedLaw, LeftAloneLaw};
ghost use Rattle.paths.specs.Tables.{TableLaw, StepsLaw};
ghost use Rattle.paths.specs.Asked.{PairAskedLaw, PathAskedLaw};

/// A listed pair stands exactly where a path leads from its first point to its second with a word that the query accepts.
pub fn pair()
    ensures { PairLaw }
{}

/// Two local facts make a table of arrivals right: it is supported and closed.
pub fn table()
    ensures { TableLaw }
{}

/// What a call owes on last steps: a table that did not change meets it, and it leaves no change but for the reasons that it names.
pub fn last_steps()
    ensures { StepsLaw }
{}

/// The calls of a row settle its answers, its reports and its end.
pub fn determined()
    ensures { DeterminedLaw }
{}

/// A pair's announcements less its withdrawals come to one if it stands and to nought if not.
pub fn balance()
    ensures { BalanceLaw }
{}

/// A pair left alone stands until its time plus the window, and not from there on.
pub fn left_alone()
    ensures { LeftAloneLaw }
{}

/// Pair's answer is settled, and by a right table there is one.
pub fn pair_asked()
    ensures { PairAskedLaw }
{}

/// Path's answer and memory are settled by its table, its refusal by no table, and by a right table there is an answer.
pub fn path_asked()
    ensures { PathAskedLaw }
{}

/// A lawful slice of link records means just its records in use.
pub fn link_memory()
    ensures { LinkMemoryLaw }
{}

/// An arrival record can say each last step that an arrival may have.
pub fn step_record()
    ensures { StepRecordLaw }
{}

/// Each place among the arrival records is that of one start, end point and state.
pub fn arrival_places()
    ensures { PlaceLaw }
{}

/// What has no place among the arrival records is not reached, and what is not reached has no last step.
pub fn no_arrival_place()
    ensures { NoPlaceLaw }
{}

/// Writing an arrival's record changes that arrival alone, and no other start's table.
pub fn arrival_write()
    ensures { ArrivalWriteLaw }
{}
