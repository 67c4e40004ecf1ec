//! What faults and envelopes print.

use dumpi_text::{LineFault, TextCause, TextFault, TimeFault};
use mpi_model::{CommRef, Envelope, LayoutFault, Peer, ReceiveEnvelope};
use std::alloc::Global;
use std::fmt::Display;
use std::test::Fail;
use trace_know::SegmentFault;

/// Whether a value is printed so.
fn is_printed<T: Display>(alloc: Global, value: &T, want: &str) -> bool {
    match format!(in alloc; "{value}") {
        Ok(text) => text.as_str() == want,
        Err(_) => false,
    }
}

static LAYOUTS: [(LayoutFault, &str); 8] = [
    (LayoutFault::RankCount, "L1 RankCount"),
    (LayoutFault::CommCount, "L2 CommCount"),
    (LayoutFault::DoubleComm, "L3 DoubleComm"),
    (LayoutFault::EmptyComm, "L4 EmptyComm"),
    (LayoutFault::MemberRange, "L5 MemberRange"),
    (LayoutFault::DoubleMember, "L6 DoubleMember"),
    (LayoutFault::World, "L7 World"),
    (LayoutFault::Memory, "Memory"),
];

#[test]
fn faults_of_layouts(rt: HostRuntime) {
    for (fault, want) in LAYOUTS {
        assert!(rt; is_printed(rt.alloc(), &fault, want), "{want}");
    }
}

static LINES: [(LineFault, &str); 9] = [
    (LineFault::LineTooLong, "F2 LineTooLong at line 3"),
    (LineFault::BadStamp, "F3 BadStamp at line 3"),
    (LineFault::OtherThread, "F4 OtherThread at line 3"),
    (LineFault::ReturnOutside, "F5 ReturnOutside at line 3"),
    (LineFault::NotReturned, "F6 NotReturned at line 3"),
    (LineFault::NameDiffers, "F7 NameDiffers at line 3"),
    (LineFault::BadParameter, "F8 BadParameter at line 3"),
    (LineFault::Truncated, "F9 Truncated at line 3"),
    (LineFault::TooManyLines, "F11 TooManyLines at line 3"),
];

#[test]
fn faults_of_lines(rt: HostRuntime) {
    for (fault, want) in LINES {
        let fault = TextFault::At {
            line: 3,
            cause: TextCause::Line(fault),
        };
        assert!(rt; is_printed(rt.alloc(), &fault, want), "{want}");
    }
}

static TEXTS: [(TextFault, &str); 3] = [
    (
        TextFault::At {
            line: 3,
            cause: TextCause::Read,
        },
        "F1 Read at line 3",
    ),
    (TextFault::Memory, "no memory is left"),
    (TextFault::Ended, "the text was refused before"),
];

#[test]
fn faults_of_texts(rt: HostRuntime) {
    for (fault, want) in TEXTS {
        assert!(rt; is_printed(rt.alloc(), &fault, want), "{want}");
    }
}

static TIMES: [(TimeFault, &str); 3] = [
    (TimeFault::NoDigits, "X1 NoDigits"),
    (TimeFault::BadCharacter, "X2 BadCharacter"),
    (TimeFault::TooLarge, "X3 TooLarge"),
];

#[test]
fn faults_of_times(rt: HostRuntime) {
    for (fault, want) in TIMES {
        assert!(rt; is_printed(rt.alloc(), &fault, want), "{want}");
    }
}

static SEGMENTS: [(SegmentFault, &str); 4] = [
    (SegmentFault::Empty, "S1 Empty"),
    (SegmentFault::TooLong, "S2 TooLong"),
    (SegmentFault::Place, "S3 Place"),
    (SegmentFault::Halves, "S4 Halves"),
];

#[test]
fn faults_of_segments(rt: HostRuntime) {
    for (fault, want) in SEGMENTS {
        assert!(rt; is_printed(rt.alloc(), &fault, want), "{want}");
    }
}

#[test]
fn an_envelope_is_printed_by_its_names(rt: HostRuntime) -> Result<(), Fail> {
    let given = Envelope {
        peer: Peer::Any,
        tag: None,
        comm: CommRef::World,
        count: 3,
        datatype: -7,
    };
    let receive = ReceiveEnvelope::new(given).ok_or("a receive")?;
    let text = format!(in rt.alloc(); "{receive:?}")?;
    let want =
        "ReceiveEnvelope { inner: Envelope { peer: Any, tag: None, comm: World, count: 3, datatype: -7 } }";
    assert!(rt; text.as_str() == want, "{text}");
    Ok(())
}
