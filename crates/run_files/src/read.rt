//! From the bytes of a file to a layout or a manifest.

pub(crate) mod fields;
pub(crate) mod layout;
pub(crate) mod manifest;
pub(crate) mod numbers;
pub(crate) mod schedule;
