// What terms are read by.
use mw_least::Ctx;
use mw_prefix::LeafKinds;

/// A context, with the kinds of numerals and of quoted identifiers at hand.
#[derive(Clone, Copy)]
pub struct Reader<'c> {
    pub ctx: &'c Ctx,
    pub kinds: LeafKinds,
}
