ghost use Rattle.std.specs.Prelude.{◌≡◌, true, false, [], map, slice_set, IfSome, IfNone, OnOk, OnErr};
ghost use Rattle.pr_value.specs.SymbolSets.{contains};
ghost use Rattle.action_eval.specs.Environments.{bound_desc};
ghost use Rattle.action_eval.specs.Meaning.{desc_in, with_desc_in};
ghost use Rattle.descriptor_types.specs.Descriptors.{with_value};
ghost use Rattle.action_eval.specs.Names.{desc_place};
ghost use Rattle.action_eval.specs.SeenEnv.{seen_env};
ghost use Rattle.rule_ast.specs.SeenRules.{seen_rules};

use descriptor_types::{Desc, Layout};
use pr_value::{Memory, Symbol, Value};
use rule_ast::Rules;
use std::alloc::Global;

/// Descriptors by their names, over a rule set and its layout.
#[derive(Drop)]
pub struct Env<'a> {
    rules: &'a Rules,
    layout: &'a Layout,
    descs: Vec<(Symbol, Desc)>,
}

impl<'a> Env<'a> {
    /// An environment without descriptors, which takes no memory yet.
    pub fn new(alloc: Global, rules: &'a Rules, layout: &'a Layout) -> Env<'a>
        ensures { seen_env result ≡ record { rules = seen_rules rules.now; layout = layout.now; descs = [] } }
    {
        Env {
            rules,
            layout,
            descs: Vec::new(alloc),
        }
    }

    pub fn rules(&self) -> &'a Rules
        ensures { seen_rules result.now ≡ (seen_env self.now).rules }
    {
        self.rules
    }

    pub fn layout(&self) -> &'a Layout
        ensures { result.now ≡ (seen_env self.now).layout }
    {
        self.layout
    }

    /// The descriptor of that name. It takes no memory.
    pub fn desc(&self, name: &Symbol) -> Option<&Desc>
        ensures some { IfSome result (λ d. d.now ≡ desc_in (seen_env self.now).descs name.now) }
        ensures known { IfSome result (λ d. contains (map (λ d. d.0) (seen_env self.now).descs) name.now ≡ true) }
        ensures none { IfNone result (contains (map (λ d. d.0) (seen_env self.now).descs) name.now ≡ false) }
    {
        match place_of(self.descs.as_slice(), name) {
            Some(place) => Some(&self.descs[place].1),
            None => None,
        }
    }

    /// Puts a descriptor under a name, in place of the one of that name if there is one. The
    /// environment is unchanged after an error.
    pub fn bind(&mut self, alloc: Global, name: &Symbol, d: Desc) -> Result<(), Memory>
        ensures ok { OnOk result (seen_env self.new ≡ record (seen_env self.old) { descs = bound_desc name.now d (seen_env self.old).descs }) }
        ensures err { OnErr result (seen_env self.new ≡ seen_env self.old) }
    {
        match place_of(self.descs.as_slice(), name) {
            Some(place) => {
                self.descs[place].1 = d;
                Ok(())
            }
            None => {
                let name = name.copy(alloc)?;
                self.descs.push((name, d))?;
                Ok(())
            }
        }
    }

    /// A property of a descriptor becomes the value.
    pub(crate) fn set_property(&mut self, desc: &Symbol, property: &Symbol, value: Value)
        ensures { seen_env self.new ≡ record (seen_env self.old) {
          descs = with_desc_in (seen_env self.old).descs desc.now (with_value (seen_env self.old).layout property.now value (desc_in (seen_env self.old).descs desc.now));
        } }
    {
        let Some(desc) = place_of(self.descs.as_slice(), desc) else {
            return;
        };
        let Some(place) = self.layout.find(property) else {
            return;
        };
        set_at(&mut self.descs[desc].1, place, value);
    }

    /// A descriptor becomes another, which is there. The environment is unchanged after an error.
    pub(crate) fn copy_desc(
        &mut self,
        alloc: Global,
        to: &Symbol,
        from: &Symbol,
    ) -> Result<(), Memory>
        requires { contains (map (λ d. d.0) (seen_env self.old).descs) from.now ≡ true }
        ensures ok { OnOk result (seen_env self.new ≡ record (seen_env self.old) { descs = with_desc_in (seen_env self.old).descs to.now (desc_in (seen_env self.old).descs from.now) }) }
        ensures err { OnErr result (seen_env self.new ≡ seen_env self.old) }
    {
        let Some(desc) = self.desc(from) else {
            return Ok(());
        };
        let copy = desc.copy(alloc)?;
        self.put(to, copy);
        Ok(())
    }

    /// Puts a descriptor in place of the one of that name, if there is one.
    fn put(&mut self, name: &Symbol, d: Desc)
        ensures { seen_env self.new ≡ record (seen_env self.old) { descs = with_desc_in (seen_env self.old).descs name.now d } }
    {
        if let Some(place) = place_of(self.descs.as_slice(), name) {
            self.descs[place].1 = d;
        }
    }
}

/// Sets the value at a place, if there is one.
fn set_at(desc: &mut Desc, place: usize, value: Value)
    ensures { desc.new ≡ slice_set desc.old place value }
{
    if place >= desc.count() {
        return;
    }
    desc.set(place, value);
}

/// The place of the descriptor of that name.
fn place_of(descs: &[(Symbol, Desc)], name: &Symbol) -> Option<usize>
    ensures { result ≡ desc_place descs.now name.now }
{
    for (i, desc) in descs.iter().enumerate() {
        if desc.0 == *name {
            return Some(i);
        }
    }
    None
}
