//! What is known of each address of an image.
ghost use Rattle.std.specs.Prelude.{◌≡◌, map, IfOk};
ghost use Rattle.tb_engine_listing.specs.Pieces.{row_of};
ghost use Rattle.tb_engine_listing.specs.PlaceNames as places;

use crate::pieces::{Kind, Piece};
use std::alloc::{AllocError, Global};
use tb_runtime16::BLOCK_AT;

/// What is known of an address: what piece begins there, if one does, and whether a piece names it.
#[derive(Clone, Copy, Drop)]
pub struct Mark {
    pub begins: Option<Kind>,
    pub is_named: bool,
}

const NO_MARK: Mark = Mark {
    begins: None,
    is_named: false,
};

/// A mark for each address of an image.
#[derive(Drop)]
pub struct Marks {
    marks: Vec<Mark>,
}

impl Marks {
    /// The mark of an address; outside the image no piece begins.
    pub fn at(&self, address: u16) -> Mark
        ensures { result ≡ places.mark_at self.now.marks.items address }
    {
        let offset = offset_of(address);
        if offset < self.marks.len() {
            self.marks[offset]
        } else {
            NO_MARK
        }
    }
}

// The offset of an address in the image; an address below the image has one after its end.
fn offset_of(address: u16) -> usize
    ensures { result ≡ places.offset_of address }
{
    usize::from(address.wrapping_sub(BLOCK_AT))
}

/// The marks of an image of this length, by its pieces.
pub fn marks_of(alloc: Global, length: usize, pieces: &[Piece<'_>]) -> Result<Marks, AllocError>
    ensures { IfOk result (λ marks. marks.marks.items ≡ places.marks_of length (map row_of pieces.now)) }
{
    let mut marks = Vec::from_elem(alloc, NO_MARK, length)?;
    for piece in pieces {
        mark_piece(&mut marks, piece);
    }
    Ok(Marks { marks })
}

fn mark_piece(marks: &mut Vec<Mark>, piece: &Piece<'_>)
    ensures { marks.new.items ≡ places.marked marks.old.items (row_of piece.now) }
{
    begin(marks, piece.at, piece.kind);
    if let Some(address) = piece.named.address() {
        name(marks, address);
    }
}

// Marks an address as one where a piece begins.
fn begin(marks: &mut Vec<Mark>, at: u16, kind: Kind)
    ensures { marks.new.items ≡ places.begun kind at marks.old.items }
{
    let here = offset_of(at);
    if here < marks.len() {
        marks[here].begins = Some(kind);
    }
}

// Marks an address as one that is named.
fn name(marks: &mut Vec<Mark>, address: u16)
    ensures { marks.new.items ≡ places.named address marks.old.items }
{
    let there = offset_of(address);
    if there < marks.len() {
        marks[there].is_named = true;
    }
}
