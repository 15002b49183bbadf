// Why rows make no problem together.
ghost use Rattle.std.specs.Prelude.{◌≡◌};
ghost use Rattle.problem_faults.specs.OfModel.{of_model};
ghost use Rattle.problem_faults.specs.declared.join.JoinFault.TheVariants as fault;

use gas_model::{ModelFault, Name, NoMemory};

/// The first offence of rows that make no problem together.
#[derive(Debug, Drop)]
pub enum JoinFault {
    /// A nomination of a node that the network hasn't.
    NoSuchNode { id: Name },
    /// An entry that is no source, an exit that is no sink, or a decision on a connection of another word.
    WrongType { id: Name },
    /// A node has two nominations.
    TwiceNominated { id: Name },
    /// A pipe, or a resistor without a loss, has no row in the table.
    NoResistance { arc: Name },
    /// A station has no row in the table.
    NoStation { arc: Name },
    /// An earlier row of the table has this word and id. Rows count from 1.
    TwiceRow { row: u64 },
    /// No connection takes this row.
    UnusedRow { row: u64 },
    /// The joined rows make no problem.
    Model(ModelFault),
    NoMemory,
}

impl From<NoMemory> for JoinFault {
    ghost from_gives = { λ _ e. e ≡ fault.NoMemory };

    fn from(_: NoMemory) -> JoinFault {
        JoinFault::NoMemory
    }
}

impl From<ModelFault> for JoinFault {
    ghost from_gives = { λ m e. e ≡ of_model m };

    fn from(fault: ModelFault) -> JoinFault {
        match fault {
            ModelFault::NoMemory => JoinFault::NoMemory,
            other => JoinFault::Model(other),
        }
    }
}
