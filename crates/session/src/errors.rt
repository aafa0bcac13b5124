// What each step of a line answers where it isn't done, and what the line then answers.
ghost use Rattle.std.specs.Prelude.{◌≡◌};
ghost use Rattle.session.specs.Halts.{work_of_make, work_of_run, halt_of_read, halt_of_work, halt_of_write, stop_of_read};

use crate::answer::Refusal;
use base_io::RunErr;
use scheme_data::{OutOfMemory, Text};

/// Why names were not read.
#[derive(Drop, Debug)]
pub enum ReadErr {
    NoFile(Text),
    FileFault(Text),
    Memory,
}

/// Why a name was not written.
#[derive(Drop, Debug)]
pub enum WriteErr {
    FileFault(Text),
    Memory,
}

/// Why nothing was made of what was read.
#[derive(Drop, Debug)]
pub enum MakeErr {
    Refused(Refusal),
    Memory,
}

/// Why a command was not done with what was read.
#[derive(Drop, Debug)]
pub enum WorkErr {
    Refused(Refusal),
    WriteFault,
    Memory,
}

/// Why a line was not done.
#[derive(Drop, Debug)]
pub enum Halt {
    NoFile(Text),
    FileFault(Text),
    WriteFault,
    Refused(Refusal),
    Memory,
}

/// Why a script was not done to its end: a line that is no script line, or one that was not done; line 0 is the script itself.
#[derive(Drop, Debug)]
pub enum Stop {
    BadLine(u64),
    Halted(u64, Halt),
}

impl From<OutOfMemory> for ReadErr {
    ghost use Rattle.session.specs.declared.errors.ReadErr.TheVariants.{Memory};

    ghost from_gives = { λ _ e. e ≡ Memory };

    fn from(_: OutOfMemory) -> Self {
        ReadErr::Memory
    }
}

impl From<OutOfMemory> for WriteErr {
    ghost use Rattle.session.specs.declared.errors.WriteErr.TheVariants.{Memory};

    ghost from_gives = { λ _ e. e ≡ Memory };

    fn from(_: OutOfMemory) -> Self {
        WriteErr::Memory
    }
}

impl From<OutOfMemory> for MakeErr {
    ghost use Rattle.session.specs.declared.errors.MakeErr.TheVariants.{Memory};

    ghost from_gives = { λ _ e. e ≡ Memory };

    fn from(_: OutOfMemory) -> Self {
        MakeErr::Memory
    }
}

impl From<OutOfMemory> for WorkErr {
    ghost use Rattle.session.specs.declared.errors.WorkErr.TheVariants.{Memory};

    ghost from_gives = { λ _ e. e ≡ Memory };

    fn from(_: OutOfMemory) -> Self {
        WorkErr::Memory
    }
}

impl From<MakeErr> for WorkErr {
    ghost from_gives = { λ made e. e ≡ work_of_make made };

    fn from(made: MakeErr) -> Self {
        match made {
            MakeErr::Refused(refusal) => WorkErr::Refused(refusal),
            MakeErr::Memory => WorkErr::Memory,
        }
    }
}

impl From<RunErr> for WorkErr {
    ghost from_gives = { λ ran e. e ≡ work_of_run ran };

    fn from(ran: RunErr) -> Self {
        match ran {
            RunErr::WriteFault => WorkErr::WriteFault,
            RunErr::Memory => WorkErr::Memory,
        }
    }
}

impl From<OutOfMemory> for Halt {
    ghost use Rattle.session.specs.declared.errors.Halt.TheVariants.{Memory};

    ghost from_gives = { λ _ halt. halt ≡ Memory };

    fn from(_: OutOfMemory) -> Self {
        Halt::Memory
    }
}

impl From<ReadErr> for Halt {
    ghost from_gives = { λ read halt. halt ≡ halt_of_read read };

    fn from(read: ReadErr) -> Self {
        match read {
            ReadErr::NoFile(name) => Halt::NoFile(name),
            ReadErr::FileFault(name) => Halt::FileFault(name),
            ReadErr::Memory => Halt::Memory,
        }
    }
}

impl From<WorkErr> for Halt {
    ghost from_gives = { λ worked halt. halt ≡ halt_of_work worked };

    fn from(worked: WorkErr) -> Self {
        match worked {
            WorkErr::Refused(refusal) => Halt::Refused(refusal),
            WorkErr::WriteFault => Halt::WriteFault,
            WorkErr::Memory => Halt::Memory,
        }
    }
}

impl From<WriteErr> for Halt {
    ghost from_gives = { λ wrote halt. halt ≡ halt_of_write wrote };

    fn from(wrote: WriteErr) -> Self {
        match wrote {
            WriteErr::FileFault(name) => Halt::FileFault(name),
            WriteErr::Memory => Halt::Memory,
        }
    }
}

impl From<OutOfMemory> for Stop {
    ghost use Rattle.session.specs.declared.errors.Halt.TheVariants.{Memory};
    ghost use Rattle.session.specs.declared.errors.Stop.TheVariants.{Halted};

    ghost from_gives = { λ _ stop. stop ≡ Halted 0 Memory };

    fn from(_: OutOfMemory) -> Self {
        Stop::Halted(0, Halt::Memory)
    }
}

impl From<ReadErr> for Stop {
    ghost from_gives = { λ read stop. stop ≡ stop_of_read read };

    fn from(read: ReadErr) -> Self {
        Stop::Halted(0, Halt::from(read))
    }
}
