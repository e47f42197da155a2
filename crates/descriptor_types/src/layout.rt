ghost use Rattle.std.specs.Prelude.{◌≡◌, ◌↔◌, ◌<◌, [], ◌∷◌, ◌++◌, Some, length, option_map, position, slice_get, IsTrue, IfOk, OnOk, OnErr};
ghost use Rattle.std.specs.Str.{bytes_eq};
ghost use Rattle.descriptor_types.specs.Descriptors.{place_of, IsCostPlace};

use pr_value::{Kind, Memory, Property, Symbol};
use std::alloc::Global;
use std::marker::Model;

/// The properties with their kinds, in the order of declaration.
#[derive(Drop)]
pub struct Layout {
    properties: Vec<Property>,
}

impl Model for Layout {
    ghost use Rattle.std.specs.Prelude.{List};
    ghost use Rattle.pr_value.specs.declared.property.Property.{Property};

    ghost Value = { List Property };

    ghost view = { λ l. l.properties.items };
}

fn first_named(properties: &[Property], name: &Symbol) -> Option<usize>
    ensures { result ≡ position (λ p. bytes_eq p.name name.now) properties.now }
{
    properties
        .iter()
        .position(|property| property.name == *name)
}

fn is_cost(kind: Kind) -> bool
    ensures { IsTrue result ↔ (kind ≡ Kind.Cost) }
{
    match kind {
        Kind::Cost => true,
        Kind::Num | Kind::Truth | Kind::Symbol | Kind::Set | Kind::List => false,
    }
}

fn first_cost(properties: &[Property]) -> Option<usize>
    ensures { IsCostPlace properties.now result }
{
    for (place, property) in properties.iter().enumerate() {
        if is_cost(property.kind) {
            return Some(place);
        }
    }
    None
}

impl Layout {
    /// A layout without properties, which takes no memory yet.
    pub fn new(alloc: Global) -> Layout
        ensures { result ≡ [] }
    {
        Layout {
            properties: Vec::new(alloc),
        }
    }

    /// The layout of these properties, in their order.
    pub fn of(alloc: Global, properties: &[Property]) -> Result<Layout, Memory>
        ensures { IfOk result (λ l. l ≡ properties.now) }
    {
        let mut copies = Vec::with_capacity(alloc, properties.len())?;
        for property in properties {
            copies.push(property.copy(alloc)?)?;
        }
        Ok(Layout { properties: copies })
    }

    /// Declares a further property. The layout is unchanged after an error.
    pub fn push(&mut self, name: Symbol, kind: Kind) -> Result<(), Memory>
        ensures ok { OnOk result (self.new ≡ self.old ++ record { name = name; kind = kind } ∷ []) }
        ensures err { OnErr result (self.new ≡ self.old) }
    {
        self.properties.push(Property { name, kind })?;
        Ok(())
    }

    pub fn count(&self) -> usize
        ensures { result ≡ length self.now }
    {
        self.properties.len()
    }

    /// The name of the property at a place, from 0.
    pub fn name(&self, p: usize) -> &Symbol
        requires { p < length self.now }
        ensures { option_map (λ q. q.name) (slice_get self.now p) ≡ Some result.now }
    {
        &self.properties[p].name
    }

    /// The kind of the property at a place, from 0.
    pub fn kind(&self, p: usize) -> Kind
        requires { p < length self.now }
        ensures { option_map (λ q. q.kind) (slice_get self.now p) ≡ Some result }
    {
        self.properties[p].kind
    }

    /// The place of the first property of that name, if there is one.
    pub fn find(&self, name: &Symbol) -> Option<usize>
        ensures { result ≡ place_of self.now name.now }
    {
        first_named(self.as_slice(), name)
    }

    /// The place of the first property of kind cost, if there is one.
    pub fn cost_place(&self) -> Option<usize>
        ensures { IsCostPlace self.now result }
    {
        first_cost(self.as_slice())
    }

    pub fn as_slice(&self) -> &[Property]
        ensures { result.now ≡ self.now }
    {
        self.properties.as_slice()
    }

    /// An equal layout.
    pub fn copy(&self, alloc: Global) -> Result<Layout, Memory>
        ensures { IfOk result (λ l. l ≡ self.now) }
    {
        let copy = Layout::of(alloc, self.as_slice())?;
        Ok(copy)
    }
}
