//! The texts that are kept.
ghost use Rattle.std.specs.Prelude.{◌≡◌, ◌<◌, ◌+◌, ◌++◌, ◌∷◌, [], length, IfOk, IfSome, option_map};
ghost use Rattle.std.specs.Prelude.{slice_get};
ghost use Rattle.lab_image.specs.Sources.{source_at};

use base_text::text::Text;
use std::alloc::{AllocError, Global};
use std::marker::Model;
use thiserror::Error;

/// The most texts that are kept.
pub const MOST_SOURCES: usize = 1024;

/// Why a text is not kept under a path.
#[derive(Clone, Copy, PartialEq, Eq, Debug, Error)]
pub enum SourceFault {
    /// The path is kept with another text.
    #[error("the path has another text")]
    NameTaken,
    /// The path is new, and 1,024 texts are kept already.
    #[error("there are 1,024 sources")]
    Full,
}

/// A text and the path under which it is kept.
#[derive(Drop)]
pub struct Source {
    pub path: Text,
    pub text: Text,
}

impl Source {
    ghost use Rattle.lab_image.specs.declared.sources.Source.{Source};

    /// A copy of a text under a copy of its path.
    pub fn copy_of(alloc: Global, path: &str, text: &str) -> Result<Source, AllocError>
        ensures { IfOk result (λ source. source ≡ record { path = path.now; text = text.now }) }
    {
        let path = Text::copy_of(alloc, path)?;
        let text = Text::copy_of(alloc, text)?;
        Ok(Source { path, text })
    }
}

/// The texts that are kept, seen as a list in the order of their numbers, which count from 0.
#[derive(Drop)]
pub struct Sources {
    sources: Vec<Source>,
}

impl Model for Sources {
    ghost use Rattle.std.specs.Prelude.{◌≤◌, List, length, vec_capacity};
    ghost use Rattle.lab_image.specs.declared.sources.Source.{Source};

    ghost Value = { List Source };

    ghost view = { λ s. s.sources.items };

    // There is room for all from the start.
    ghost invariant = { λ s. (length s.sources.items ≤ 1024) × (1024 ≤ vec_capacity s.sources) };
}

impl Sources {
    ghost use Rattle.lab_image.specs.Sources.{place_of, number_at};

    /// No texts, with room for `MOST_SOURCES`.
    pub fn new(alloc: Global) -> Result<Sources, AllocError>
        ensures { IfOk result (λ sources. sources ≡ []) }
    {
        let sources = Vec::with_capacity(alloc, MOST_SOURCES)?;
        Ok(Sources { sources })
    }

    /// The number of texts.
    pub fn len(&self) -> usize
        ensures { result ≡ length self.now }
    {
        self.sources.len()
    }

    /// The number of a text that is kept already, or `None` if it is new and there is room for it.
    pub fn place(&self, path: &str, text: &str) -> Result<Option<usize>, SourceFault>
        ensures place { result ≡ place_of (record { path = path.now; text = text.now }) self.now }
        ensures few { IfOk result (λ place. number_at place self.now < 1024) }
    {
        match self.find(path) {
            Some((number, kept)) => {
                if kept == text {
                    Ok(Some(number))
                } else {
                    Err(SourceFault::NameTaken)
                }
            }
            None => {
                if self.sources.len() < MOST_SOURCES {
                    Ok(None)
                } else {
                    Err(SourceFault::Full)
                }
            }
        }
    }

    /// The number and the text that are kept under a path.
    pub fn find(&self, path: &str) -> Option<(usize, &str)>
        ensures found { option_map (λ p. (p.0, p.1.now)) result ≡ source_at self.now path.now }
        ensures within { IfSome result (λ p. (p.0 < length self.now) × (p.0 < 1024)) }
    {
        for (number, source) in self.sources.iter().enumerate() {
            if source.path.as_str() == path {
                return Some((number, source.text.as_str()));
            }
        }
        None
    }

    /// The source of a number.
    pub fn get(&self, number: usize) -> Option<&Source>
        ensures { option_map (λ source. source.now) result ≡ slice_get self.now number }
    {
        self.sources.get(number)
    }

    /// Keeps one more text, for which there is room.
    pub fn add(&mut self, source: Source)
        requires { length self.old < 1024 }
        ensures { self.new ≡ self.old ++ source ∷ [] }
    {
        self.sources.push_reserved(source);
    }
}
