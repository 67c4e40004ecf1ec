//! From a layout or a manifest to the bytes of its file.

pub(crate) mod layout;
pub(crate) mod manifest;
pub(crate) mod numbers;
pub(crate) mod values;
