// The modules of a source, each accepted by those before it.
ghost use Rattle.std.specs.Prelude.{◌≡◌, OnOk};
ghost use Rattle.mw_build.specs.Modules.{AreLoaded};
ghost use Rattle.mw_module.specs.Known.{AreKnown};
ghost use Rattle.mw_module.specs.Units.{seen_unit};

use crate::flat::with_module;
use mw_build::{Module, build};
use mw_import::Units;
use mw_lex::{LexError, Token, tokens};
use mw_module::{Unit, UnitError, read_unit};
use mw_omod::declare;
use mw_prelude::Mentioned;
use mw_term::Name;
use std::alloc::{AllocError, Global};

/// The tokens of these bytes; none of bytes that aren't tokens.
fn lexed(alloc: Global, bytes: &[u8]) -> Result<Vec<Token>, AllocError> {
    if bytes.len() >= u32::MAX as usize {
        return Err(AllocError);
    }
    match tokens(alloc, bytes) {
        Ok(found) => Ok(found),
        Err(LexError::Fault(_)) => Ok(Vec::new(alloc)),
        Err(LexError::Memory) => Err(AllocError),
    }
}

/// The tokens of the modules of the prelude that these tokens need.
fn prelude(alloc: Global, own: &[Token]) -> Result<Vec<Token>, AllocError> {
    let mut mentioned = Mentioned::nothing();
    for token in own {
        mentioned = mentioned.with(token.text.as_slice());
    }
    let text = mentioned.prelude(alloc)?;
    lexed(alloc, text.as_slice())
}

/// Accepts the module that a unit is, behind these, and tells whether it is one.
fn accept<'s>(
    alloc: Global,
    units: &mut Units<'s>,
    modules: &mut Vec<Module>,
    unit: Unit<'s>,
) -> Result<bool, AllocError>
    requires loaded { AreLoaded units.old modules.old.items }
    requires known { AreKnown (seen_unit unit).statements }
    ensures { OnOk result (AreLoaded units.new modules.new.items) }
{
    let Some(name) = unit.name else {
        return Ok(false);
    };
    let text = name.text.as_slice();
    if units.number(text).is_some() {
        return Ok(false);
    }
    let name = Name::of(text.to_vec(alloc)?);
    units.shows();
    match build(alloc, units, modules.as_slice(), &unit, name) {
        Ok(built) => {
            modules.push(built.module)?;
            units.accept(alloc, text, unit, built.flat)?;
            Ok(true)
        }
        Err(UnitError::Fault(_)) => Ok(false),
        Err(UnitError::Memory) => Err(AllocError),
    }
}

/// Accepts the module that a unit declares, behind these, and tells whether it is one.
fn accept_declared<'s>(
    alloc: Global,
    units: &mut Units<'s>,
    modules: &mut Vec<Module>,
    unit: Unit<'s>,
) -> Result<bool, AllocError>
    requires loaded { AreLoaded units.old modules.old.items }
    requires known { AreKnown (seen_unit unit).statements }
    ensures { OnOk result (AreLoaded units.new modules.new.items) }
{
    let declared = declare(alloc, unit)?;
    accept(alloc, units, modules, declared)
}

/// The records of the modules that these tokens are, where the first so many tokens are of the prelude.
fn records_of(alloc: Global, tokens: &[Token], prelude: usize) -> Result<Vec<u8>, AllocError> {
    let mut text = Vec::new(alloc);
    let mut units = Units::new(alloc);
    let mut modules = Vec::new(alloc);
    let mut at = 0;
    while at < tokens.len() {
        let (outcome, next) = read_unit(alloc, tokens, at, true)?;
        let accepted = match outcome {
            Ok(unit) => accept_declared(alloc, &mut units, &mut modules, unit)?,
            Err(_) => false,
        };
        if accepted
            && at >= prelude
            && let Some(module) = modules.last()
        {
            text = with_module(text, module)?;
        }
        at = next;
    }
    Ok(text)
}

/// The records of a source's modules, each in a line.
pub fn flattened(alloc: Global, bytes: &[u8]) -> Result<Vec<u8>, AllocError> {
    let mut own = lexed(alloc, bytes)?;
    let mut all = prelude(alloc, own.as_slice())?;
    let first = all.len();
    all.append(&mut own)?;
    let mut text = records_of(alloc, all.as_slice(), first)?;
    if !text.is_empty() {
        text.push(b'\n')?;
    }
    Ok(text)
}
