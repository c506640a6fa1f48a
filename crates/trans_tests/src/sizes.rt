//! How much a table of directives has.
use inform_tree::Directive;
use std::process::Abort;

/// How many statements each routine has.
pub fn sizes<R: Abort + AllocGlobal>(rt: &R, table: &[Directive]) -> Vec<usize> {
    let mut sizes = Vec::new(rt.alloc());
    for directive in table {
        match directive {
            Directive::Routine(routine) => sizes.push(routine.body.len()).expect(rt, "memory"),
            _ => {}
        }
    }
    sizes
}
