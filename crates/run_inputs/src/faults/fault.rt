//! Why a run is refused, and the line that standard error shows.

ghost use Rattle.std.specs.Prelude.{◌≡◌, IfOk, string_bytes};
ghost use Rattle.run_inputs.specs.FaultLines.{cause_name, fault_line_of, layout_fault_name, line_fault_name, packed_cause_name, step_cause_name, wire_fault_name};

use crate::faults::file_name::FileName;
use dumpi_calls::Parameter;
use dumpi_text::{LineFault, TextCause};
use mpi_model::LayoutFault;
use run_files::Field;
use std::alloc::{AllocError, AllocFailed, Global};
use std::fmt;
use trace_wire::{PackedCause, WireFault};

/// Why a step of a replay can't be done: the first cause in this order.
#[derive(Clone, Copy, Debug, PartialEq, Eq)]
pub enum StepCause {
    /// No node has this number.
    NoNode,
    /// No mail has this number.
    NoMail,
    /// The node's inbox is empty.
    EmptyInbox,
    /// The layout doesn't have the segment's rank.
    Rank,
    /// The frame to be shipped would be longer than a frame may be.
    FrameLength,
    /// The number of nodes isn't 1 to 64.
    NodeCount,
}

/// Why a run is refused: the first cause in the order in which files are read and checked. Each names its file as the
/// command line or the manifest spells it; lines count from 1.
#[derive(Drop)]
pub enum RunFault {
    /// Memory was refused.
    Memory,
    /// The file can't be opened or read, or has more bytes than its kind may have.
    File {
        path: String,
    },
    /// The file is no JSON: the mistake is at this line and column, both from 1; column 0 is before the line's first
    /// byte.
    Json {
        path: String,
        line: u64,
        column: u64,
    },
    /// This field of a layout or a manifest is missing, of another kind, or out of its range, or a field in it is.
    Shape {
        path: String,
        field: Field,
    },
    /// The schedule posts a piece that the manifest doesn't list.
    Piece {
        path: String,
    },
    /// The schedule posts a packed piece, or the manifest of a cluster lists one.
    Packed {
        path: String,
    },
    /// The frame of this number, from 0, of a packed file is refused.
    PackedFrame {
        cause: PackedCause,
        path: String,
        frame: u64,
    },
    /// The layout of the file breaks this rule of layouts.
    Layout {
        fault: LayoutFault,
        path: String,
    },
    /// The text is refused at the line, for this cause.
    Text {
        cause: TextCause,
        path: String,
        line: u64,
    },
    /// The call that is entered at the line lacks a parameter.
    Missing {
        parameter: Parameter,
        path: String,
        line: u64,
    },
    /// The call that is entered at the line has a parameter that can't be read or is out of its range.
    Wrong {
        parameter: Parameter,
        path: String,
        line: u64,
    },
    /// A call of the piece has a place at or past 2^40.
    Place {
        path: String,
    },
    /// The piece has calls of a rank that the layout doesn't have.
    Rank {
        path: String,
    },
    /// The layout doesn't have this rank. It is the rank of a piece's calls, when it isn't known which piece, or the
    /// one that was asked for.
    Outside,
    /// The number of nodes of a replay isn't 1 to 64.
    NodeCount,
    /// The step of this number, from 0, can't be done.
    Step {
        cause: StepCause,
        step: usize,
    },
    /// A worker of a node couldn't be started, or its queue to the node was closed.
    Worker,
    /// Two nodes couldn't be connected.
    Net,
    /// A node couldn't send what it knows, or read what the other sent.
    Frame {
        fault: WireFault,
    },
    /// The output couldn't be written.
    Write,
}

impl From<AllocError> for RunFault {
    ghost use Rattle.std.specs.Prelude.{◌≡◌};
    ghost use Rattle.run_inputs.specs.declared.faults.fault.RunFault.TheVariants.{Memory};

    ghost from_gives = { λ _ e. e ≡ Memory };

    fn from(_error: AllocError) -> RunFault {
        RunFault::Memory
    }
}

impl<T: Drop> From<AllocFailed<T>> for RunFault {
    ghost use Rattle.std.specs.Prelude.{◌≡◌};
    ghost use Rattle.run_inputs.specs.declared.faults.fault.RunFault.TheVariants.{Memory};

    ghost from_gives = { λ _ e. e ≡ Memory };

    fn from(_error: AllocFailed<T>) -> RunFault {
        RunFault::Memory
    }
}

/// The line for standard error, with its line feed. Fails with `AllocError` when memory is refused.
pub fn fault_line(alloc: Global, fault: &RunFault) -> Result<String, AllocError>
    ensures { IfOk result (λ line. string_bytes line ≡ fault_line_of fault.now) }
{
    format!(in alloc; "mpimatch: {fault}\n")
}

impl fmt::Display for RunFault {
    ghost use Rattle.std.specs.Prelude.{Some};
    ghost use Rattle.run_inputs.specs.FaultLines.{fault_text};

    ghost output = { λ fault. Some (fault_text fault) };

    fn fmt<W: fmt::Write>(&self, f: &mut fmt::Formatter<W>) -> fmt::Result {
        match self {
            RunFault::Memory => write!(f, "Memory"),
            RunFault::File { path } => write!(f, "M1 File {}", FileName::new(path)),
            RunFault::Json { path, .. } => write!(f, "M2 Json in {}", FileName::new(path)),
            RunFault::Shape { path, .. } => write!(f, "M3 Shape in {}", FileName::new(path)),
            RunFault::Piece { path } => write!(f, "M4 Piece in {}", FileName::new(path)),
            RunFault::Packed { path } => write!(f, "M5 Packed in {}", FileName::new(path)),
            RunFault::PackedFrame { cause, path, frame } => {
                let name = name_of_packed(*cause);
                write!(f, "{name} at frame {frame} of {}", FileName::new(path))
            }
            RunFault::Layout { fault, path } => {
                let name = name_of_layout(*fault);
                write!(f, "{name} in {}", FileName::new(path))
            }
            RunFault::Text { cause, path, line } => {
                let name = name_of_cause(*cause);
                write!(f, "{name} at {}:{line}", FileName::new(path))
            }
            RunFault::Missing {
                parameter,
                path,
                line,
            } => {
                let name = parameter.name();
                write!(f, "C1 Missing {name} at {}:{line}", FileName::new(path))
            }
            RunFault::Wrong {
                parameter,
                path,
                line,
            } => {
                let name = parameter.name();
                write!(f, "C2 Wrong {name} at {}:{line}", FileName::new(path))
            }
            RunFault::Place { path } => write!(f, "S3 Place in {}", FileName::new(path)),
            RunFault::Rank { path } => write!(f, "N1 Rank in {}", FileName::new(path)),
            RunFault::Outside => write!(f, "N1 Rank"),
            RunFault::NodeCount => write!(f, "V7 NodeCount"),
            RunFault::Step { cause, step } => {
                let name = name_of_step(*cause);
                write!(f, "{name} at step {step}")
            }
            RunFault::Worker => write!(f, "Y1 Worker"),
            RunFault::Net => write!(f, "Y3 Net"),
            RunFault::Frame { fault } => {
                let name = name_of_wire(*fault);
                write!(f, "{name}")
            }
            RunFault::Write => write!(f, "R1 Write"),
        }
    }
}

/// The name of a broken rule of layouts, as a fault line has it.
pub fn name_of_layout(fault: LayoutFault) -> &'static str
    ensures { result.now ≡ layout_fault_name fault }
{
    match fault {
        LayoutFault::RankCount => "L1 RankCount",
        LayoutFault::CommCount => "L2 CommCount",
        LayoutFault::DoubleComm => "L3 DoubleComm",
        LayoutFault::EmptyComm => "L4 EmptyComm",
        LayoutFault::MemberRange => "L5 MemberRange",
        LayoutFault::DoubleMember => "L6 DoubleMember",
        LayoutFault::World => "L7 World",
        LayoutFault::Numbers => "L8 Numbers",
        LayoutFault::Memory => "Memory",
    }
}

/// The name of the cause for which a text is refused.
fn name_of_cause(cause: TextCause) -> &'static str
    ensures { result.now ≡ cause_name cause }
{
    match cause {
        TextCause::Read => "F1 Read",
        TextCause::Line(fault) => name_of_line(fault),
    }
}

/// The name of the fault of a text's line.
fn name_of_line(fault: LineFault) -> &'static str
    ensures { result.now ≡ line_fault_name fault }
{
    match fault {
        LineFault::LineTooLong => "F2 LineTooLong",
        LineFault::BadStamp => "F3 BadStamp",
        LineFault::OtherThread => "F4 OtherThread",
        LineFault::ReturnOutside => "F5 ReturnOutside",
        LineFault::NotReturned => "F6 NotReturned",
        LineFault::NameDiffers => "F7 NameDiffers",
        LineFault::BadParameter => "F8 BadParameter",
        LineFault::Truncated => "F9 Truncated",
        LineFault::TooManyLines => "F11 TooManyLines",
    }
}

/// The name of the cause for which a step can't be done.
fn name_of_step(cause: StepCause) -> &'static str
    ensures { result.now ≡ step_cause_name cause }
{
    match cause {
        StepCause::NoNode => "V1 NoNode",
        StepCause::NoMail => "V2 NoMail",
        StepCause::EmptyInbox => "V3 EmptyInbox",
        StepCause::Rank => "V4 Rank",
        StepCause::FrameLength => "V5 FrameLength",
        StepCause::NodeCount => "V7 NodeCount",
    }
}

/// The name of the cause for which a packed file is refused.
fn name_of_packed(cause: PackedCause) -> &'static str
    ensures { result.now ≡ packed_cause_name cause }
{
    match cause {
        PackedCause::Wire(fault) => name_of_wire(fault),
        PackedCause::Rank => "N1 Rank",
    }
}

/// The name of a frame's fault.
fn name_of_wire(fault: WireFault) -> &'static str
    ensures { result.now ≡ wire_fault_name fault }
{
    match fault {
        WireFault::Memory => "Memory",
        WireFault::Read => "W1 Read",
        WireFault::Write => "W1 Write",
        WireFault::Magic => "W2 Magic",
        WireFault::Version => "W3 Version",
        WireFault::Length => "W4 Length",
        WireFault::Short => "W5 Short",
        WireFault::Order => "W6 Order",
        WireFault::Content => "W7 Content",
        WireFault::Rest => "W8 Rest",
    }
}
