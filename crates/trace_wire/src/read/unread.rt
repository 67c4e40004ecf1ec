//! Why a payload was not read.

use crate::fault::WireFault;

/// Whether the device or the bytes of a payload are the cause, and the fault.
#[derive(Clone, Copy)]
pub(crate) enum Unread {
    /// The device failed or ended, or there was no memory for its bytes.
    Device(WireFault),
    /// The bytes are no payload, or there was no memory for what they tell.
    Payload(WireFault),
}
