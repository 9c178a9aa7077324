// Which modules of the prelude a source needs.
ghost use Rattle.std.specs.Prelude.{◌≡◌, ◌++◌, ℕ, List, [], IfOk, OnOk, if◌then◌else◌};
ghost use Rattle.mw_prelude.specs.Modules.{text_of};
ghost use Rattle.mw_prelude.specs.Mentions.{asks_for, mentioned_with, mentioned_in, prelude_for};
ghost use Rattle.mw_prelude.specs.declared.modules.Predefined.TheVariants as module_of;

use crate::modules::Predefined;
use std::alloc::{AllocError, Global};

/// Which modules of the prelude the texts of tokens name, and whether there is a token at all.
#[derive(Clone, Copy)]
pub struct Mentioned {
    pub some: bool,
    pub nat: bool,
    pub qid: bool,
    pub configuration: bool,
}

/// Adds a module's text, where it is asked for.
fn add(text: &mut Vec<u8>, asked: bool, predefined: Predefined) -> Result<(), AllocError>
    ensures { OnOk result (text.new.items ≡ text.old.items ++ (if asked then text_of predefined else [])) }
{
    if asked {
        text.extend_from_slice(predefined.text())?;
    }
    Ok(())
}

/// Whether a text is the name of CONFIGURATION, or the word that begins an object module, which imports it.
fn asks_for_configuration(text: &[u8]) -> bool
    ensures { result ≡ asks_for module_of.Configuration text.now }
{
    text == Predefined::Configuration.name() || text == b"omod".as_slice()
}

impl Mentioned {
    /// What no text mentions.
    pub fn nothing() -> Mentioned
        ensures { result ≡ mentioned_in [] }
    {
        Mentioned {
            some: false,
            nat: false,
            qid: false,
            configuration: false,
        }
    }

    /// With one text more.
    pub fn with(self, text: &[u8]) -> Mentioned
        ensures { result ≡ mentioned_with self text.now }
    {
        Mentioned {
            some: true,
            nat: self.nat || text == Predefined::Nat.name(),
            qid: self.qid || text == Predefined::Qid.name(),
            configuration: self.configuration || asks_for_configuration(text),
        }
    }

    /// The texts of the modules that are needed, one behind the other: none where no text is there; else that of BOOL,
    /// and then those that are mentioned.
    pub fn prelude(self, alloc: Global) -> Result<Vec<u8>, AllocError>
        ensures { (texts : List (List ℕ)) → self ≡ mentioned_in texts
            → IfOk result (λ v. v.items ≡ prelude_for texts) }
    {
        let mut text = Vec::new(alloc);
        add(&mut text, self.some, Predefined::Bool)?;
        add(&mut text, self.nat, Predefined::Nat)?;
        add(&mut text, self.qid, Predefined::Qid)?;
        add(&mut text, self.configuration, Predefined::Configuration)?;
        Ok(text)
    }
}
