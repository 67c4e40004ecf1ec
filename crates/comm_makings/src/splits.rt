//! MPI_Comm_split: the members of each color (MPI 4.0, 7.4.2).

ghost use Rattle.std.specs.Prelude.{◌≡◌, ◌<◌, ◌^◌, IfOk, false, length, true};
ghost use Rattle.std.specs.Option.{option_copied};
ghost use Rattle.comm_makings.specs.Parts.{IsUnsound, IsUntold};
ghost use Rattle.comm_makings.specs.Splits.{IsOfCalls, all_here, asked_by, asked_in, asked_of, asked_with, colored, is_unknown, some_unknown, tells_nothing};

use crate::calls::{Color, Making, RankCalls};
use crate::here::{Here, making_at};
use crate::parts::{Outcome, color_parts};
use comm_groups::{Colored, split};
use std::alloc::{AllocError, Global};

/// What a member of the parent asks of a split.
#[derive(Clone, Copy)]
pub(crate) enum Asked {
    /// It has no such call.
    Missing,
    /// It is in no new communicator.
    Nothing,
    Part { color: u32, key: i32 },
    Unknown,
}

/// What a color and a key ask: the key counts only where the color is a number.
fn asked_with(color: Option<Color>, key: Option<i32>) -> Asked
    ensures { result ≡ asked_with color key }
{
    match color {
        None => Asked::Unknown,
        Some(Color::Undefined) => Asked::Nothing,
        Some(Color::Number(color)) => match key {
            None => Asked::Unknown,
            Some(key) => Asked::Part { color, key },
        },
    }
}

/// What a making asks: only a split says a color and a key.
fn asked_in(making: &Making) -> Asked
    ensures { result ≡ asked_in making.now }
{
    match making {
        Making::Split { color, key } => asked_with(*color, *key),
        Making::Dup
        | Making::DupWithInfo
        | Making::Idup
        | Making::IdupWithInfo
        | Making::Create { .. }
        | Making::CreateGroup { .. }
        | Making::CartCreate { .. }
        | Making::CartSub { .. }
        | Making::GraphCreate { .. }
        | Making::DistGraphCreate { .. }
        | Making::DistGraphCreateAdjacent { .. } => Asked::Unknown,
    }
}

/// What a call asks, where it makes communicators.
fn asked_of(making: Option<&Making>) -> Asked
    ensures { result ≡ asked_of (option_copied making.entry) }
{
    match making {
        Some(making) => asked_in(making),
        None => Asked::Unknown,
    }
}

/// What a member asks.
fn asked_by(ranks: &[RankCalls], here: Option<Here>) -> Asked
    ensures { result ≡ asked_by ranks.now here }
{
    match here {
        None => Asked::Missing,
        Some(here) => asked_of(making_at(ranks, here.rank, here.at)),
    }
}

/// Whether it can't be read what is asked.
fn tells_nothing(asked: Asked) -> bool
    ensures { result ≡ tells_nothing asked }
{
    match asked {
        Asked::Unknown => true,
        Asked::Missing | Asked::Nothing | Asked::Part { .. } => false,
    }
}

/// Whether the call of a member says what can't be read.
fn is_unknown(ranks: &[RankCalls], here: Option<Here>) -> bool
    ensures { result ≡ is_unknown ranks.now here }
{
    tells_nothing(asked_by(ranks, here))
}

/// The members that name a color, by their places in the parent.
fn colored(
    alloc: Global,
    ranks: &[RankCalls],
    all: &[Option<Here>],
) -> Result<Vec<Colored>, AllocError>
    requires { length all.now < 2 ^ 32 }
    ensures { IfOk result (λ v. v.items ≡ colored ranks.now 0 all.now) }
{
    let mut asked = Vec::new(alloc);
    let mut place = 0u32;
    for here in all {
        if let Asked::Part { color, key } = asked_by(ranks, *here) {
            asked.push(Colored {
                color,
                key,
                rank: place,
            })?;
        }
        place += 1;
    }
    Ok(asked)
}

/// Whether some call says what can't be read.
fn some_unknown(ranks: &[RankCalls], all: &[Option<Here>]) -> bool
    ensures { result ≡ some_unknown ranks.now all.now }
{
    all.iter().any(|here| is_unknown(ranks, *here))
}

/// Whether each member has its call.
fn all_here(all: &[Option<Here>]) -> bool
    ensures { result ≡ all_here all.now }
{
    all.iter().all(|here| here.is_some())
}

/// One communicator for each color that the calls of the members name.
fn color_outcome(
    alloc: Global,
    ranks: &[RankCalls],
    all: &[Option<Here>],
) -> Result<Outcome, AllocError>
    requires { length all.now < 2 ^ 32 }
    ensures { IfOk result (IsOfCalls ranks.now all.now) }
{
    color_parts(alloc, split(alloc, colored(alloc, ranks, all)?)?, &None)
}

/// The communicators of a split.
pub(crate) fn split_outcome(
    alloc: Global,
    ranks: &[RankCalls],
    all: &[Option<Here>],
) -> Result<Outcome, AllocError>
    requires { length all.now < 2 ^ 32 }
    ensures unknown { some_unknown ranks.now all.now ≡ true → IfOk result IsUnsound }
    ensures missing { some_unknown ranks.now all.now ≡ false → all_here all.now ≡ false → IfOk result IsUntold }
    ensures parts { some_unknown ranks.now all.now ≡ false → all_here all.now ≡ true → IfOk result (IsOfCalls ranks.now all.now) }
{
    if some_unknown(ranks, all) {
        return Ok(Outcome::Unsound);
    }
    if !all_here(all) {
        return Ok(Outcome::Untold);
    }
    color_outcome(alloc, ranks, all)
}
