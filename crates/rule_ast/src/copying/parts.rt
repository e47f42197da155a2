// Copies of declarations and rules.
use crate::copying::{Copied, copy_items};
use crate::parts::{Algorithm, Body, Helper, IRule, Operator, Param, TRule};
use pr_value::{Memory, Property};
use std::alloc::Global;

impl Copied for Property {
    fn copy(&self, alloc: Global) -> Result<Property, Memory> {
        Property::copy(self, alloc)
    }
}

impl Copied for Operator {
    fn copy(&self, alloc: Global) -> Result<Operator, Memory> {
        Ok(Operator {
            name: self.name.copy(alloc)?,
            views: copy_items(alloc, self.views.as_slice())?,
            own: self.own.copy(alloc)?,
            init: copy_items(alloc, self.init.as_slice())?,
        })
    }
}

impl Copied for Algorithm {
    fn copy(&self, alloc: Global) -> Result<Algorithm, Memory> {
        Ok(Algorithm {
            name: self.name.copy(alloc)?,
            arity: self.arity,
        })
    }
}

impl Copied for Param {
    fn copy(&self, alloc: Global) -> Result<Param, Memory> {
        Ok(Param {
            name: self.name.copy(alloc)?,
            kind: self.kind,
        })
    }
}

impl Copied for Helper {
    fn copy(&self, alloc: Global) -> Result<Helper, Memory> {
        Ok(Helper {
            name: self.name.copy(alloc)?,
            params: copy_items(alloc, self.params.as_slice())?,
            result: self.result,
            body: self.body.copy(alloc)?,
        })
    }
}

impl Copied for Body {
    fn copy(&self, alloc: Global) -> Result<Body, Memory> {
        Ok(Body {
            pre: copy_items(alloc, self.pre.as_slice())?,
            test: self.test.copy(alloc)?,
            post: copy_items(alloc, self.post.as_slice())?,
        })
    }
}

impl Copied for TRule {
    fn copy(&self, alloc: Global) -> Result<TRule, Memory> {
        Ok(TRule {
            name: self.name.copy(alloc)?,
            left: self.left.copy(alloc)?,
            right: self.right.copy(alloc)?,
            body: self.body.copy(alloc)?,
        })
    }
}

impl Copied for IRule {
    fn copy(&self, alloc: Global) -> Result<IRule, Memory> {
        Ok(IRule {
            name: self.name.copy(alloc)?,
            left: self.left.copy(alloc)?,
            right: self.right.copy(alloc)?,
            body: self.body.copy(alloc)?,
        })
    }
}
