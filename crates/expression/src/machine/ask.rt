// A machine is a query, with a law of its own.
ghost use Rattle.std.specs.Prelude.{◌≡◌};
ghost use Rattle.expression.specs.Machines.{machine_meaning, machine_lawful, MachineLaw};

use crate::machine::Machine;
use query::Query;

impl Query for Machine {
    ghost meaning = { machine_meaning };

    ghost lawful = { machine_lawful };

    fn size(&self) -> u32 {
        self.positions.len() as u32
    }

    fn accepting(&self, state: u32) -> bool {
        self.accepting.contains(state)
    }

    #[tactic(auto, using(crate::proofs::Machines::no_move))]
    fn moves(&self, state: u32, label: u32, next: u32) -> bool {
        let (Some(from), Some(to)) = (
            self.positions.get(state as usize),
            self.positions.get(next as usize),
        ) else {
            return false;
        };
        from.next.contains(next) && to.label == label
    }
}

impl Machine {
    /// Carries the law of every machine.
    pub fn law(&self)
        ensures { MachineLaw (machine_meaning self.now) }
    {}
}
