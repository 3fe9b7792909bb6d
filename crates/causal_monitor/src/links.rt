// Links from each access to the latest earlier one of its object, and the search along them.

ghost use Rattle.std.specs.Prelude.{◌≡◌, ◌<◌, map, length, vec_len, replicate, OnOk, cond, slice_set, None};
ghost use Rattle.std.specs.List.{All};
ghost use Rattle.v_design.specs.Logs.{conflict};
ghost use Rattle.causal_monitor.specs.Orders.{HasJumps};
ghost use Rattle.causal_monitor.specs.Counted.{IsNumbered, numbered_object, phase_access};
ghost use Rattle.causal_monitor.specs.Links.{AreLinks, IsFirst, group_against, access_at, is_in_group};

use crate::conflict::conflict;
use crate::group::{Group, is_in_group};
use crate::log::PhaseLog;
use crate::numbered::Numbered;
use vf_base::NoMemory;

/// Keeps an access as the latest of its object, where it is of the group.
fn keep_latest(of_group: bool, object: usize, place: usize, latest: &mut Vec<Option<usize>>)
    requires { object < vec_len latest.old }
    ensures kept { latest.new.items ≡ cond of_group (slice_set latest.old.items object (Some place)) latest.old.items }
    ensures same { vec_len latest.new ≡ vec_len latest.old }
{
    if of_group {
        latest[object] = Some(place);
    }
}

/// No object has an access yet.
fn fill_without(latest: &mut Vec<Option<usize>>, objects: usize) -> Result<(), NoMemory>
    ensures { OnOk result (latest.new.items ≡ replicate objects None) }
{
    latest.clear();
    latest.resize(objects, None)?;
    Ok(())
}

/// From each access the place of the latest earlier one of its object that is of a group. `latest` is room for the latest access of each object.
pub(crate) fn fill_links(
    accesses: &[Numbered],
    objects: usize,
    group: Group,
    latest: &mut Vec<Option<usize>>,
    links: &mut Vec<Option<usize>>,
) -> Result<(), NoMemory>
    requires { All (λ numbered. numbered_object numbered < objects) accesses.now }
    ensures count { OnOk result (vec_len links.new ≡ length accesses.now) }
    ensures links { OnOk result (AreLinks group (map phase_access accesses.now) links.new.items) }
{
    fill_without(latest, objects)?;
    links.clear();
    'accesses: for (place, numbered) in accesses.iter().enumerate() {
        let object = numbered.noted.access.object.0 as usize;
        links.push(latest[object])?;
        let of_group = is_in_group(group, &numbered.noted);
        keep_latest(of_group, object, place, latest);
    }
    Ok(())
}

/// A place, where it is wanted, else another.
fn place_or(wanted: bool, place: usize, other: Option<usize>) -> Option<usize>
    ensures { result ≡ cond wanted (Some place) other }
{
    if wanted { Some(place) } else { other }
}

/// The place of the first access with which a later one conflicts, by links to those of the group against that one.
pub(crate) fn first_conflict(
    log: &PhaseLog,
    jumps: &Vec<u64>,
    accesses: &[Numbered],
    links: &Vec<Option<usize>>,
    number: usize,
) -> Option<usize>
    requires jumps { HasJumps log.now.log jumps.now.items }
    requires numbered { All (IsNumbered (length log.now.log.events)) accesses.now }
    requires within { number < length accesses.now }
    requires count { vec_len links.now ≡ length accesses.now }
    requires links { AreLinks (group_against (access_at (map phase_access accesses.now) number).access.act) (map phase_access accesses.now) links.now.items }
    ensures { IsFirst (λ place. conflict log.now.log (access_at (map phase_access accesses.now) place) (access_at (map phase_access accesses.now) number)) 0 number result }
{
    let mut first = None;
    let mut at = links[number];
    'back: while let Some(place) = at {
        let conflicts = conflict(log, jumps, &accesses[place], &accesses[number]);
        first = place_or(conflicts, place, first);
        at = links[place];
    }
    first
}
