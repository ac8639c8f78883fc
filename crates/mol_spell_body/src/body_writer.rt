//! Where statements are written.
use std::alloc::Global;

/// Where statements of a program are written. `Err` of its calls is want of memory, after which nothing is said of the locals.
#[derive(Clone, Copy)]
pub struct BodyWriter<'p, P> {
    pub alloc: Global,
    pub places: &'p P,
}
