//! The names by which inputs are called.

ghost use Rattle.std.specs.Prelude.{◌≡◌, map, IfOk};
ghost use Rattle.td_nets.specs.Views.{name_of};
ghost use Rattle.td_nets.specs.Printed.{printed};
ghost use Rattle.td_inputs.specs.Labels.{is_named, label_in, label_of, vector_name};

use std::alloc::{AllocError, Global};
use td_nets::Name;

/// The printed name of an input, and that of the vector whose bit it is, if it is one.
#[derive(Drop)]
pub struct Label {
    name: Vec<u8>,
    vector: Option<Vec<u8>>,
}

impl Label {
    ghost use Rattle.std.specs.Prelude.{◌≡◌};
    ghost use Rattle.td_inputs.specs.Labels.{is_named, label_in};

    /// The printed name.
    pub fn name(&self) -> &[u8]
        ensures { result.now ≡ (label_in self.now).name }
    {
        &self.name
    }

    /// Whether this word is the input's name, or that of the vector whose bit it is.
    pub fn is_named(&self, word: &[u8]) -> bool
        ensures { result ≡ is_named word.now (label_in self.now) }
    {
        if self.name.as_slice() == word {
            return true;
        }
        match &self.vector {
            Some(vector) => vector.as_slice() == word,
            None => false,
        }
    }
}

/// The printed name of a vector.
fn vector_name(alloc: Global, text: &[u8]) -> Result<Vec<u8>, AllocError>
    ensures { IfOk result (λ name. name.items ≡ printed (vector_name text.now)) }
{
    let mut copy = Vec::new(alloc);
    copy.extend_from_slice(text)?;
    let name = Name {
        text: copy,
        bit: None,
    };
    let mut words = Vec::new(alloc);
    name.print(&mut words)?;
    Ok(words)
}

/// The names by which an input is called.
pub fn label_for(alloc: Global, name: &Name) -> Result<Label, AllocError>
    ensures { IfOk result (λ label. label_in label ≡ label_of (name_of name.now)) }
{
    let mut words = Vec::new(alloc);
    name.print(&mut words)?;
    match name.bit {
        None => Ok(Label {
            name: words,
            vector: None,
        }),
        Some(_) => {
            let vector = vector_name(alloc, &name.text)?;
            Ok(Label {
                name: words,
                vector: Some(vector),
            })
        }
    }
}

/// The names by which inputs are called, in order.
pub fn labels_of(alloc: Global, names: &[Name]) -> Result<Vec<Label>, AllocError>
    ensures { IfOk result (λ labels. map label_in labels.items ≡ map (λ name. label_of (name_of name)) names.now) }
{
    let mut labels = Vec::new(alloc);
    for name in names {
        labels.push(label_for(alloc, name)?)?;
    }
    Ok(labels)
}
