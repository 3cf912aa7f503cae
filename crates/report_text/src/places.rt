// Where each figure of a run report stands, request M-105.

// How many figures a report has.
pub const FIGURES: usize = 70;

// Figure 0 counts the records accepted, figure n those refused with n.
pub const ANSWERS: u32 = 29;

// Samples by the kinds of request M-103.
pub const TAKEN_AT: usize = 29;

pub const CUT_AT: usize = 30;

pub const GONE_AT: usize = 31;

pub const AMBIGUOUS_AT: usize = 32;

pub const NOT_POSITIVE_AT: usize = 33;

// The least and the greatest sample, 0 where there is none.
pub const LEAST_AT: usize = 34;

pub const GREATEST_AT: usize = 35;

// The first bucket, and how many there are.
pub const BUCKETS_AT: usize = 36;

pub const BUCKETS: usize = 32;

// The bytes sent new and sent again.
pub const NEW_AT: usize = 68;

pub const AGAIN_AT: usize = 69;
