// How a run stands.
ghost use Rattle.std.specs.Prelude.{◌≡◌};
ghost use Rattle.machine.specs.Ends.{number, going?};
ghost use Rattle.machine.specs.declared.ends.End.TheVariants.{NoSuchCell, Reported};

use memory::NotWritable;

// What the machine finds wrong.
#[derive(Clone, Copy, Debug, PartialEq, Eq)]
pub enum Report {
    // The two counters differ.
    CountersDiffer,
    // Blue's store is not the oldest one of green.
    StoreDiffers,
    // The destination is set where it must be clear, or is not the one that blue names.
    Destination,
    // A queue that is full, or empty, or not empty where it must not be so.
    Queue,
    // The counters are past the code.
    Outside,
}

// How a run stands: going on, or ended in one of these ways.
// Stays (1): a rule of the project: going on is end 0, one of the numbers of the format.
#[derive(Clone, Copy, Debug, PartialEq, Eq)]
pub enum End {
    Going,
    Halted,
    // A store at an address that is not writable.
    NoSuchCell,
    Reported(Report),
}

impl End {
    // The number by which an end is known outside.
    // Stays (1): a rule of the project: the format has numbers for ends.
    pub fn number(self) -> u32
        ensures { result ≡ number self }
    {
        match self {
            End::Going => 0,
            End::Halted => 1,
            End::NoSuchCell => 2,
            End::Reported(Report::CountersDiffer) => 3,
            End::Reported(Report::StoreDiffers) => 4,
            End::Reported(Report::Destination) => 5,
            End::Reported(Report::Queue) => 6,
            End::Reported(Report::Outside) => 7,
        }
    }

    pub fn is_going(self) -> bool
        ensures { result ≡ going? self }
    {
        matches!(self, End::Going)
    }
}

impl From<Report> for End {
    ghost from_gives = { λ report end. end ≡ Reported report };

    fn from(report: Report) -> End {
        End::Reported(report)
    }
}

impl From<NotWritable> for End {
    ghost from_gives = { λ _ end. end ≡ NoSuchCell };

    fn from(_refused: NotWritable) -> End {
        End::NoSuchCell
    }
}
