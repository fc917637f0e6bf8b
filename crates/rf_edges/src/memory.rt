// The edges in memory, which tell what they hold, and fail where they are told to.
pub(crate) mod copies;
pub(crate) mod count_sink;
pub(crate) mod fault_plan;
pub(crate) mod mem_shelf;
pub(crate) mod mem_sink;
pub(crate) mod mem_source;
pub(crate) mod sure_shelf;
pub(crate) mod sure_source;
pub(crate) mod tape;
