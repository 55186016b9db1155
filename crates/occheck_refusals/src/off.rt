//! Why a trial is not as wanted.
use occ_base::NameFault;
use occ_forms::LineFault;
use occ_lines::TextFault;
use occ_project::ExpandFault;
use occ_server::{EditFault, JobFault, ReportFault};
use occ_tree::ShapeFault;
use occ_typing::TypeFault;
use std::alloc::{AllocError, AllocFailed};

/// Why a trial is not as wanted.
#[derive(Clone, Copy)]
pub enum Off {
    /// Memory was refused.
    Memory,
    /// An answer is not the wanted one, or a refusal changed something.
    Differs,
}

/// Whether something is as wanted.
pub fn wanted(holds: bool) -> Result<(), Off> {
    if holds { Ok(()) } else { Err(Off::Differs) }
}

impl From<AllocError> for Off {
    fn from(_error: AllocError) -> Off {
        Off::Memory
    }
}

impl<T: Drop> From<AllocFailed<T>> for Off {
    fn from(_error: AllocFailed<T>) -> Off {
        Off::Memory
    }
}

impl From<NameFault> for Off {
    fn from(_fault: NameFault) -> Off {
        Off::Differs
    }
}

impl From<TextFault> for Off {
    fn from(fault: TextFault) -> Off {
        match fault {
            TextFault::Memory => Off::Memory,
            TextFault::TooLarge | TextFault::TooManyLines => Off::Differs,
        }
    }
}

impl From<LineFault> for Off {
    fn from(fault: LineFault) -> Off {
        match fault {
            LineFault::Memory => Off::Memory,
            LineFault::NoForm | LineFault::TooDeep => Off::Differs,
        }
    }
}

impl From<ExpandFault> for Off {
    fn from(fault: ExpandFault) -> Off {
        match fault {
            ExpandFault::Memory => Off::Memory,
            ExpandFault::NotGiven(_) => Off::Differs,
        }
    }
}

impl From<ShapeFault> for Off {
    fn from(fault: ShapeFault) -> Off {
        match fault {
            ShapeFault::Memory => Off::Memory,
            ShapeFault::Faults(_) => Off::Differs,
        }
    }
}

impl From<TypeFault> for Off {
    fn from(fault: TypeFault) -> Off {
        match fault {
            TypeFault::Memory => Off::Memory,
            TypeFault::Faults(_) => Off::Differs,
        }
    }
}

impl From<JobFault> for Off {
    fn from(fault: JobFault) -> Off {
        match fault {
            JobFault::Memory => Off::Memory,
            JobFault::Reads | JobFault::Used => Off::Differs,
        }
    }
}

impl From<EditFault> for Off {
    fn from(fault: EditFault) -> Off {
        match fault {
            EditFault::Memory => Off::Memory,
            EditFault::AlreadyOpen
            | EditFault::NotOpen
            | EditFault::TooManyFiles
            | EditFault::JournalFull => Off::Differs,
        }
    }
}

impl From<ReportFault> for Off {
    fn from(fault: ReportFault) -> Off {
        match fault {
            ReportFault::Memory => Off::Memory,
            ReportFault::Cut(_) | ReportFault::Behind(_) => Off::Differs,
        }
    }
}
