//! Lists of objects with names: each name stands once in a list.
ghost use Rattle.std.specs.Prelude.{◌≡◌, [], ◌∷◌, ◌++◌, length, map, not, option_map, if◌then◌else◌, IfOk, OnErr};
ghost use Rattle.serde_json.specs.View.{view};
ghost use Rattle.mud_base.specs.Readings.{Gives};
ghost use Rattle.usage_walk.specs.Named.{is_named, element_named, element};
ghost use Rattle.usage_walk.specs.Named as spec;
ghost use Rattle.usage_walk.specs.Elements.{element_view, elements_view};

use crate::fault::{FileFault, Rule};
use crate::kinds::{object_here, text_at};
use crate::member::Member;
use crate::path::{at_index, refusal};
use mud_base::Memory;
use serde_json::Value;
use std::alloc::Global;
use std::collections::BTreeMap;
use std::marker::Model;

/// An object of a list, with its name.
#[derive(Clone, Copy)]
pub struct Element<'a> {
    /// Its index in the list, from 0.
    pub index: usize,
    /// Its name.
    pub name: &'a str,
    /// The object.
    pub value: &'a Value,
}

/// Objects of a list, each with a name of its own, in the order in which they were added. Contracts
/// see them as the list of the elements.
#[derive(Drop)]
pub struct Elements<'a> {
    elements: Vec<Element<'a>>,
    /// The elements by their names.
    by_name: BTreeMap<&'a str, Element<'a>>,
}

impl<'a> Model for Elements<'a> {
    ghost use Rattle.std.specs.Prelude.{List};
    ghost use Rattle.usage_walk.specs.declared.named.Element.{Element as Named};
    ghost use Rattle.std.specs.Coded.{codes};
    ghost use Rattle.serde_json.specs.contracts.value.Value as json;

    ghost Value = { List Named };

    ghost coded = { Prim.hlevel (codes, json.the_row.coded) };

    ghost use Rattle.usage_walk.specs.Elements.{IsIndexOf};

    ghost view = { λ s. s.elements.items };

    ghost invariant = { λ s. IsIndexOf s.by_name s.elements.items };
}

impl<'a> Elements<'a> {
    /// None yet.
    pub fn new(alloc: Global) -> Elements<'a>
        ensures { result ≡ [] }
    {
        Elements {
            elements: Vec::new(alloc),
            by_name: BTreeMap::new(alloc),
        }
    }

    /// How many there are.
    pub fn len(&self) -> usize
        ensures { result ≡ length self.now }
    {
        self.elements.len()
    }

    /// All of them, in order.
    pub fn as_slice(&self) -> &[Element<'a>]
        ensures { result.now ≡ self.now }
    {
        self.elements.as_slice()
    }

    /// The one that has the name.
    #[tactic(auto, using(crate::proofs::NamedLists::element_named_view))]
    pub fn named(&self, name: &str) -> Option<Element<'a>>
        ensures { option_map element_view result ≡ element_named name.now (elements_view self.now) }
    {
        self.by_name.get(name).copied()
    }

    /// Adds an object behind the others, where its name is new; else they stay, and the answer is
    /// false.
    #[tactic(auto, using(crate::proofs::NamedLists::is_named_view, crate::proofs::NamedLists::elements_push, crate::proofs::NamedLists::index_push))]
    pub fn push(&mut self, name: &'a str, value: &'a Value) -> Result<bool, Memory>
        ensures fresh { IfOk result (λ fresh. fresh ≡ not (is_named name.now (elements_view self.old))) }
        ensures pushed { IfOk result (λ fresh. elements_view self.new ≡ (if fresh then elements_view self.old ++ element (elements_view self.old) name.now (view value.now) ∷ [] else elements_view self.old)) }
        ensures memory { OnErr result (self.new ≡ self.old) }
    {
        if self.by_name.contains_key(name) {
            return Ok(false);
        }
        let element = Element {
            index: self.elements.len(),
            name,
            value,
        };
        self.elements.push(element)?;
        match self.by_name.insert(name, element) {
            Ok(_) => Ok(true),
            Err(_) => {
                let _ = self.elements.pop();
                Err(Memory)
            }
        }
    }
}

/// Adds an object at this path behind the others, where its name is new.
#[tactic(auto, unfolding(crate::specs::Named::with_named), using(mud_base::proofs::Readings::answer_bind, mud_base::proofs::Readings::answer_done, mud_base::proofs::Readings::answer_passed, mud_base::proofs::Readings::answer_refused))]
fn add<'a>(
    alloc: Global,
    elements: &mut Elements<'a>,
    name: &'a str,
    object: &'a Value,
    path: &[u8],
) -> Result<(), FileFault>
    ensures { Gives (λ _. elements_view elements.new) result (spec.with_named path.now (elements_view elements.old) name.now (view object.now)) }
{
    if elements.push(name, object)? {
        Ok(())
    } else {
        Err(refusal(alloc, Rule::RepeatedName, path, Member::Name))
    }
}

/// Reads the next element of a list, which has this path.
#[tactic(auto, unfolding(crate::specs::Named::next_element), using(mud_base::proofs::Readings::answer_bind))]
fn next_element<'a>(
    alloc: Global,
    elements: &mut Elements<'a>,
    value: &'a Value,
    path: &[u8],
) -> Result<(), FileFault>
    ensures { Gives (λ _. elements_view elements.new) result (spec.next_element path.now (elements_view elements.old) (view value.now)) }
{
    let object = object_here(alloc, value, path)?;
    let name = text_at(alloc, object, path, Member::Name)?;
    add(alloc, elements, name, object, path)
}

/// Reads the next element of the list at this path.
#[tactic(auto, unfolding(crate::specs::Named::element_at))]
fn element_at<'a>(
    alloc: Global,
    elements: &mut Elements<'a>,
    value: &'a Value,
    path: &[u8],
) -> Result<(), FileFault>
    ensures { Gives (λ _. elements_view elements.new) result (spec.element_at path.now (elements_view elements.old) (view value.now)) }
{
    let path = at_index(alloc, path, elements.len())?;
    next_element(alloc, elements, value, path.octets())
}

/// The elements of the list at this path: each is an object with a name that none before it has.
#[tactic(auto, unfolding(crate::specs::Named::elements_of), using(mud_base::proofs::Readings::over_taken, mud_base::proofs::Readings::over_refused, mud_base::proofs::Readings::over_past))]
pub fn elements_of<'a>(
    alloc: Global,
    list: &'a [Value],
    path: &[u8],
) -> Result<Elements<'a>, FileFault>
    ensures { Gives elements_view result (spec.elements_of path.now (map view list.now)) }
{
    let mut elements = Elements::new(alloc);
    'list: for value in list {
        element_at(alloc, &mut elements, value, path)?;
    }
    Ok(elements)
}
