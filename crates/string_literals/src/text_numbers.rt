//! Texts and their numbers.

ghost use Rattle.std.specs.Prelude.{◌≡◌, ◌<◌, ◌^◌, [], IfOk, OnOk, length};
ghost use Rattle.string_literals.specs.Texts.{with_text, HasNumber};

use rows::Text;
use std::alloc::{AllocError, Global};
use std::collections::BTreeMap;
use std::marker::Model;

/// Texts in the order in which they came, each once. Contracts see the list of them.
#[derive(Drop)]
pub struct TextNumbers {
    texts: Vec<Text>,
    numbers: BTreeMap<String, u32>,
}

impl Model for TextNumbers {
    ghost use Rattle.std.specs.Prelude.{◌≡◌, List, ℕ, bytes_eq};
    ghost use Rattle.std.specs.List.{position_from};
    ghost use Rattle.std.specs.BTreeMap.{get_by_text};

    ghost Value = { List (List ℕ) };

    ghost view = { λ known. known.texts.items };

    ghost invariant = { λ known. (text : List ℕ) → get_by_text known.numbers text ≡ position_from (bytes_eq text) 0 known.texts.items };
}

impl TextNumbers {
    /// No texts.
    pub fn new(alloc: Global) -> Self
        ensures { result ≡ [] }
    {
        TextNumbers {
            texts: Vec::new(alloc),
            numbers: BTreeMap::new(alloc),
        }
    }

    /// The number of a text, which is the next one where the text is new.
    pub fn number(&mut self, alloc: Global, text: Text) -> Result<u32, AllocError>
        requires { length self.old < 2 ^ 31 }
        ensures texts { OnOk result (self.new ≡ with_text self.old text) }
        ensures number { IfOk result (λ n. HasNumber self.new text n) }
    {
        if let Some(number) = self.numbers.get(text.as_str()) {
            return Ok(*number);
        }
        let number = self.texts.len() as u32;
        let key = String::from_str(alloc, text.as_str())?;
        self.texts.push(text)?;
        if let Err(failed) = self.numbers.insert(key, number) {
            let _ = self.texts.pop();
            return Err(AllocError::from(failed));
        }
        Ok(number)
    }

    /// The texts by their numbers.
    pub fn into_texts(self) -> Vec<Text>
        ensures { result.items ≡ self }
    {
        let TextNumbers { texts, numbers } = self;
        drop(numbers);
        texts
    }
}
