//! The setting of allowed families.

ghost use Rattle.std.specs.Prelude.{◌≡◌, option_and_then, option_copied, IfOk};
ghost use Rattle.serde_json.specs.Find.{as_array};
ghost use Rattle.serde_json.specs.Read.{read};
ghost use Rattle.serde_json.specs.View.{items_view, view};
ghost use Rattle.saw_rules.specs.Families.{families_among, families_in, families_of, family_in, text_under};

use saw_wire::{Items, Text};
use serde_json::{Category, Value};
use std::alloc::{AllocError, Global};

/// A family in one version.
#[derive(Drop)]
pub struct Family {
    pub name: Text,
    pub version: Text,
}

/// The families that a text lists: a JSON array (RFC 8259) that is not empty, of objects whose `family` and `version`
/// are strings. Other keys are passed over, and the last value of a repeated key counts. `None`: it is no such list.
#[tactic(auto, unfolding(crate::specs::Families::families_of))]
pub fn families_of(alloc: Global, text: &str) -> Result<Option<Items<Family>>, AllocError>
    ensures { IfOk result (λ families. families ≡ families_of text.now) }
{
    match Value::from_str(alloc, text) {
        Ok(value) => families_by(alloc, &value),
        Err(fault) if fault.classify() == Category::Memory => Err(AllocError),
        Err(_) => Ok(None),
    }
}

fn families_by(alloc: Global, value: &Value) -> Result<Option<Items<Family>>, AllocError>
    ensures { IfOk result (λ families. families ≡ option_and_then families_among (as_array (view value.now))) }
{
    match value.as_array() {
        Some(elements) => families_among(alloc, elements),
        None => Ok(None),
    }
}

fn families_among(alloc: Global, elements: &[Value]) -> Result<Option<Items<Family>>, AllocError>
    ensures { IfOk result (λ families. families ≡ families_among (items_view elements.now)) }
{
    if elements.is_empty() {
        return Ok(None);
    }
    families_in(alloc, elements)
}

fn families_in(alloc: Global, elements: &[Value]) -> Result<Option<Items<Family>>, AllocError>
    ensures { IfOk result (λ families. families ≡ families_in (items_view elements.now)) }
{
    let mut families = Items::new(alloc);
    for element in elements {
        match family_in(alloc, element)? {
            Some(family) => families.push(family)?,
            None => return Ok(None),
        }
    }
    Ok(Some(families))
}

fn family_in(alloc: Global, element: &Value) -> Result<Option<Family>, AllocError>
    ensures { IfOk result (λ family. family ≡ family_in (view element.now)) }
{
    let Some(name) = text_under(element, "family") else {
        return Ok(None);
    };
    let Some(version) = text_under(element, "version") else {
        return Ok(None);
    };
    let name = Text::from_str(alloc, name)?;
    let version = Text::from_str(alloc, version)?;
    Ok(Some(Family { name, version }))
}

fn text_under<'a>(element: &'a Value, key: &str) -> Option<&'a str>
    ensures { option_copied result ≡ text_under key.now (view element.now) }
{
    element.get(key).and_then(Value::as_str)
}
