//! What stands at a place, asked of whoever can tell of the past.

ghost use Rattle.capture_form.specs.Rules.{RuleSet};
ghost use Rattle.std.specs.Prelude.{List, ◌≡◌, ◌==◌, IfSome, option_and_then, option_map};
ghost use Rattle.trace_events.specs.History.{moment_of};
ghost use Rattle.trace_events.specs.Link.{IsLiveLink, is_consumer, live_link};
ghost use Rattle.trace_events.specs.Words.{is_some_and, or_else, where_passes};
ghost use Rattle.trace_events.specs.View.{Events, link_view};
ghost use Rattle.svg_text.specs.Numbers.{most};
ghost use Rattle.credit_levels.specs.Levels as spec;

use crate::delivery_counts::DeliveryCounts;
use crate::pick::{Pick, PickedLink};
use capture_form::{Record, RuleSet};
use credit_chart::Level;
use trace_events::{Link, moment_of};
use trace_judge::{Counts, Inputs};

/// The link that stands at a place, if it lives.
pub(crate) fn link_at<'a, P: Inputs<'a>>(past: &P, place: PickedLink) -> Option<Link<'a>>
    ensures value { (rules : RuleSet) (history : Events) → P.stands_for past.now rules history → option_map link_view result ≡ spec.link_at place history }
    ensures live { (rules : RuleSet) (history : Events) → P.stands_for past.now rules history → IfSome (option_map link_view result) (λ l. IsLiveLink l history) }
{
    of_number(link_on(past, place), place.number)
}

/// The link that lives on the handle of a place.
fn link_on<'a, P: Inputs<'a>>(past: &P, place: PickedLink) -> Option<Link<'a>>
    ensures value { (rules : RuleSet) (history : Events) → P.stands_for past.now rules history →
        option_map link_view result ≡ live_link place.connection place.channel place.handle history }
    ensures live { (rules : RuleSet) (history : Events) → P.stands_for past.now rules history → IfSome (option_map link_view result) (λ l. IsLiveLink l history) }
{
    match past.live_session(place.connection, place.channel) {
        Some(session) => past.session_link(session, place.handle),
        None => None,
    }
}

/// The link, if it is the one of this number.
fn of_number<'a>(link: Option<Link<'a>>, number: u64) -> Option<Link<'a>>
    ensures { option_map link_view result ≡ where_passes (λ l. l.number == number) (option_map link_view link.entry) }
{
    match link {
        Some(link) => {
            if link.number == number {
                Some(link)
            } else {
                None
            }
        }
        None => None,
    }
}

/// Where the link stands that opened with the last record, of this number, if it is one of a consumer that is picked.
fn opened<'a, P: Inputs<'a>>(
    past: &P,
    pick: &Pick<'_>,
    number: u64,
    entry: &Record,
) -> Option<PickedLink>
    ensures { (rules : RuleSet) (history : Events) → P.stands_for past.now rules history →
        result ≡ spec.opened pick.now number entry.now.connection (moment_of entry.now.what) history }
{
    let moment = moment_of(&entry.what);
    let place = pick.attached(number, entry.connection, &moment)?;
    is_consumers(link_at(past, place)).then_some(place)
}

/// The link that is picked: the one that stood before, or else the one that opens here.
pub(crate) fn placed<'a, P: Inputs<'a>>(
    earlier: Option<PickedLink>,
    past: &P,
    pick: &Pick<'_>,
    number: u64,
    entry: &Record,
) -> Option<PickedLink>
    ensures { (rules : RuleSet) (history : Events) → P.stands_for past.now rules history →
        result ≡ or_else earlier (spec.opened pick.now number entry.now.connection (moment_of entry.now.what) history) }
{
    match earlier {
        Some(place) => Some(place),
        None => opened(past, pick, number, entry),
    }
}

/// There is a link, and it is a consumer's.
fn is_consumers(link: Option<Link<'_>>) -> bool
    ensures { result ≡ is_some_and (option_map link_view link.entry) is_consumer }
{
    match link {
        Some(link) => link.is_consumer(),
        None => false,
    }
}

/// What stands at a place, if there is one and a link lives there.
pub(crate) fn level_of<'a, P: Inputs<'a> + Counts + DeliveryCounts>(
    past: &P,
    rules: &RuleSet,
    place: Option<PickedLink>,
) -> Option<Level>
    ensures { (history : Events) → P.stands_for past.now rules.now history → result ≡ option_and_then (λ at. spec.level_at rules.now at history) place }
{
    level_at(past, rules, place?)
}

/// What stands at a place, if a link lives there.
fn level_at<'a, P: Inputs<'a> + Counts + DeliveryCounts>(
    past: &P,
    rules: &RuleSet,
    place: PickedLink,
) -> Option<Level>
    ensures { (history : Events) → P.stands_for past.now rules.now history → result ≡ spec.level_at rules.now place history }
{
    let link = link_at(past, place)?;
    Some(Level {
        credit: past.link_credit(&link),
        window: past.session_window(link.session),
        waiting: narrowed(past.waiting_count(rules, link.address)),
        unsettled: narrowed(past.unsettled_count(rules, &link)),
        is_draining: past.is_draining(&link),
    })
}

/// It stops at the largest number.
fn narrowed(number: usize) -> u32
    ensures { result ≡ most number }
{
    u32::try_from(number).unwrap_or(u32::MAX)
}
