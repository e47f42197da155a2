// A copy of a rule set.
use crate::copying::{Copied, copy_items};
use crate::rule_set::Rules;
use pr_value::Memory;
use std::alloc::Global;

impl Copied for Rules {
    fn copy(&self, alloc: Global) -> Result<Rules, Memory> {
        Ok(Rules {
            properties: copy_items(alloc, self.properties.as_slice())?,
            operators: copy_items(alloc, self.operators.as_slice())?,
            algorithms: copy_items(alloc, self.algorithms.as_slice())?,
            helpers: copy_items(alloc, self.helpers.as_slice())?,
            trules: copy_items(alloc, self.trules.as_slice())?,
            irules: copy_items(alloc, self.irules.as_slice())?,
        })
    }
}
