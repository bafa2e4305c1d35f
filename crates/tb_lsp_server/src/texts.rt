//! The texts that are open.
ghost use Rattle.std.specs.Prelude.{◌≡◌, ◌<◌, [], length, IfOk, IfSome, option_map, string_bytes};
ghost use Rattle.tb_lsp_server.specs.Texts.{Opens, has, place_from, text_of, without};

use std::alloc::{AllocError, Global};

/// A text that is open.
#[derive(Drop)]
pub struct OpenText {
    pub uri: String,
    pub text: String,
}

impl OpenText {
    // A text by its name.
    fn new(alloc: Global, uri: &str, text: &str) -> Result<OpenText, AllocError>
        ensures { IfOk result (λ t. (string_bytes t.uri ≡ uri.now) × (string_bytes t.text ≡ text.now)) }
    {
        Ok(OpenText {
            uri: String::from_str(alloc, uri)?,
            text: String::from_str(alloc, text)?,
        })
    }
}

/// The texts that are open, each once.
#[derive(Drop)]
pub struct Texts {
    pub all: Vec<OpenText>,
}

impl Texts {
    /// No text is open.
    pub fn new(alloc: Global) -> Texts
        ensures { result.all.items ≡ [] }
    {
        Texts {
            all: Vec::new(alloc),
        }
    }

    // Where a text is among those that are open.
    fn place(&self, uri: &str) -> Option<usize>
        ensures place { result ≡ place_from 0 uri.now self.now.all.items }
        ensures within { IfSome result (λ i. i < length self.now.all.items) }
    {
        for (i, text) in self.all.iter().enumerate() {
            if text.uri.as_str() == uri {
                return Some(i);
            }
        }
        None
    }

    /// Whether a text is open.
    pub fn has(&self, uri: &str) -> bool
        ensures { result ≡ has uri.now self.now.all.items }
    {
        self.place(uri).is_some()
    }

    /// A text that is open.
    pub fn text(&self, uri: &str) -> Option<&str>
        ensures { option_map (λ t. t.now) result ≡ text_of uri.now self.now.all.items }
    {
        let place = self.place(uri)?;
        Some(self.all.get(place)?.text.as_str())
    }

    /// Closes a text. Where it isn't open nothing happens.
    pub fn close(&mut self, uri: &str)
        ensures { self.new.all.items ≡ without uri.now self.old.all.items }
    {
        if let Some(place) = self.place(uri) {
            let _ = self.all.remove(place);
        }
    }

    /// Opens a text, in place of what it was. Where memory runs out, it may be closed.
    pub fn put(&mut self, alloc: Global, uri: &str, text: &str) -> Result<(), AllocError>
        ensures { IfOk result (λ _. Opens uri.now text.now self.old.all.items self.new.all.items) }
    {
        let now = OpenText::new(alloc, uri, text)?;
        self.close(uri);
        self.all.push(now)?;
        Ok(())
    }
}
