//! What each verb does over a run.

pub(crate) mod answerer;
pub(crate) mod calls;
pub(crate) mod check;
pub(crate) mod check_json;
pub(crate) mod cluster;
pub(crate) mod noted_run;
pub(crate) mod pack;
pub(crate) mod replay;
pub(crate) mod report;
pub(crate) mod schedule;
pub(crate) mod streaming;
pub(crate) mod survey;
pub(crate) mod timeline;
pub(crate) mod writing;
