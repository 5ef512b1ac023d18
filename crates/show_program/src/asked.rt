//! Which records are asked for.

use capture_view::{Choice, LinkTold, Names, RecordView, Trail, Traits};
use std::alloc::{AllocError, Global};

/// What is asked for, and what has to be known of the records so far to tell which are.
#[derive(Drop)]
pub struct Asked<'a> {
    choice: Choice<'a>,
    names: Names,
    trail: Option<Trail>,
}

impl<'a> Asked<'a> {
    ghost use Rattle.std.specs.Prelude.{◌≡◌, List, [], ◌∷◌, IfOk, OnOk, option_and_then, option_map};
    ghost use Rattle.capture_view.specs.Viewed.{Viewed, viewed};
    ghost use Rattle.capture_view.specs.Told.{told_text};
    ghost use Rattle.capture_view.specs.Named.{key_of, link_named};
    ghost use Rattle.capture_view.specs.Tables.{StandsFor, TakesOneMore};
    ghost use Rattle.show_program.specs.Asked.{IsAnswer};

    /// Those for which `choice` asks.
    pub fn new(alloc: Global, choice: Choice<'a>) -> Asked<'a>
        ensures names { StandsFor result.names [] }
        ensures choice { result.choice ≡ choice.entry }
    {
        Asked {
            choice,
            names: Names::new(alloc),
            trail: choice.delivery.map(|delivery| Trail::new(alloc, delivery)),
        }
    }

    /// Takes one record more, and says whether it is asked for. After an error a link, a begin or a transfer of this record
    /// may not be known.
    pub fn take(&mut self, view: &RecordView<'_>) -> Result<bool, AllocError>
        ensures names { OnOk result (TakesOneMore self.old.names self.new.names (viewed view.now)) }
        ensures choice { self.new.choice ≡ self.old.choice }
        // Each test but that of a delivery holds of a record that is asked for, and where no delivery is, this is all.
        ensures answer { IfOk result (λ is_asked. (past : List Viewed) → StandsFor self.old.names past → IsAnswer self.old.choice (viewed view.now ∷ past) (viewed view.now) is_asked) }
    {
        let is_of_delivery = follow(&mut self.trail, view)?;
        self.names.take(view)?;
        Ok(self.asks_for(view, is_of_delivery))
    }

    /// Whether a record is asked for, which was taken last.
    fn asks_for(&self, view: &RecordView<'_>, is_of_delivery: bool) -> bool
        ensures { (now : List Viewed) → StandsFor self.now.names now → IsAnswer self.now.choice now (viewed view.now) result }
    {
        let traits = Traits {
            number: view.number,
            connection: view.connection,
            link: name_of(self.link_of(view)),
            is_of_delivery,
        };
        self.choice.shows(&traits)
    }

    /// The link that a record's frame names.
    pub fn link_of(&self, view: &RecordView<'_>) -> Option<LinkTold<'_>>
        ensures { (now : List Viewed) → StandsFor self.now.names now → option_map told_text result ≡ option_and_then (link_named now) (key_of (viewed view.now)) }
    {
        self.names.named_by(view)
    }

    /// Whether a record's frame stands on a session that has begun.
    pub fn has_session_of(&self, view: &RecordView<'_>) -> bool {
        self.names.has_session_of(view)
    }
}

ghost use Rattle.std.specs.Prelude.{◌≡◌, option_map};

/// The name of a link.
fn name_of<'a>(link: Option<LinkTold<'a>>) -> Option<&'a str>
    ensures { option_map (λ name. name.now) result ≡ option_map (λ told. told.name.now) link.entry }
{
    match link {
        Some(told) => Some(told.name),
        None => None,
    }
}

/// Whether the record is about the delivery that is asked for.
fn follow(trail: &mut Option<Trail>, view: &RecordView<'_>) -> Result<bool, AllocError> {
    match trail {
        Some(trail) => trail.take(view),
        None => Ok(false),
    }
}
