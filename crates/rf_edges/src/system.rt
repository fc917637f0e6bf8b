// The edges over the system: a few lines each, which tell nothing of content.
pub(crate) mod counting;
pub(crate) mod dir_shelf;
pub(crate) mod std_sink;
pub(crate) mod std_source;
