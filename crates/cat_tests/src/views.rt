//! A view that is held while the catalogue is changed.

ghost use Rattle.std.specs.Prelude.{◌≡◌, IsTrue};
ghost use Rattle.sha2.specs.Sha256.{sha256};
ghost use Rattle.cat_model.specs.Drafts.{nothing_open};
ghost use Rattle.cat_model.specs.WellMade.{is_well_made};

use crate::asking::change;
use crate::requests::{CREATE_DEV, FIRST, PUT_T2};
use cat_codes::bytes::Bytes;
use cat_content::hash;
use cat_core::Store;
use cat_keeper::MemKeeper;
use cat_model::command::Command;
use cat_model::limits::Limits;
use cat_model::moment::Moment;
use cat_names::hash::Hash;
use cat_names::key::ContentKey;
use cat_state::catalogue::Catalogue;
use cat_state::counts::Counts;
use cat_state::view::View;
use std::alloc::Global;
use std::process::Abort;

/// The entry of a commit that puts a table at `t1`.
const ENTRY: &[u8] =
    b"\x04\0\0\0\x01\0\0\0\0\0\0\0\x01\0\0\0\0\0\x0fB@\0\0\0\x04main\x01.\x1c\xfa\x82\xb05\xc2l\xbb\xbd\xaec,\xea\x07\x05\x14\xeb\x8bw?aj\xae\xaff\x8e/\x0b\xe8\xf1\x0d\0\0\0\x03one\0\0\0\0\0\0\0\0\0\0\0\0\0\0\0\0\x01\x01\0\x02t1\x01\x01\0\0\0+\x01\0\0\0\0\0\0\0\x01\0\0\0\0\0\0\0\0\0\0\0\x02m1\0\0\0\0\0\0\0\x01\0\0\0\0\0\0\0\0\0\0\0\0\xf9-\xf1L)\x1cU\x08\x1act\xc5\x07K\x13\x94\x01e\x91\xb1\x98\x1c\xd3+;\xdd\xb2\x0a?\x86\xd5\xd4";

/// A store of this one entry.
pub(crate) fn committed<R: Abort>(rt: &R, alloc: Global) -> Store<MemKeeper>
    ensures { result.left_open ≡ nothing_open }
{
    let Ok(payload) = Bytes::from_slice(alloc, ENTRY) else {
        panic!(rt; "there is memory");
    };
    let Ok(payloads) = vec![in alloc; payload] else {
        panic!(rt; "there is memory");
    };
    match Store::open(alloc, MemKeeper::new(alloc, payloads), Limits::program()) {
        Ok(store) => store,
        Err(_) => panic!(rt; "the entry is legal"),
    }
}

/// Whether a catalogue counts so many entries and references, and one commit, which is the first.
pub(crate) fn counts(found: &Counts, place: u32, references: u64) -> bool {
    found.place == place
        && found.references == references
        && (found.commits, found.contents, found.keys) == (1, 1, 1)
        && Some(found.head) == Hash::parse(FIRST)
}

/// Whether a catalogue has one commit, which is the first, and a key's content under its hash.
fn has_first(alloc: Global, catalogue: &Catalogue, key: &ContentKey) -> bool {
    let head = catalogue.main_head();
    let Some(entry) = catalogue.entry_at(&head, key) else {
        return false;
    };
    let Some(content) = catalogue.contents().get(&entry.hash) else {
        return false;
    };
    counts(&catalogue.counts(), 1, 1)
        && catalogue.commits().get(&head).is_some()
        && hash(alloc, content) == Ok(entry.hash)
}

/// Whether a catalogue has one commit, which is the first, and the content at `t1` under its hash.
fn is_first<R: Abort>(rt: &R, alloc: Global, catalogue: &Catalogue) -> bool {
    let Ok(key) = ContentKey::parse_path(alloc, "t1") else {
        panic!(rt; "there is memory");
    };
    has_first(alloc, catalogue, &key)
}

/// A view of a store of this one entry, opened for the draft of a commit that is never made.
pub(crate) fn view_of_one<R: Abort>(rt: &R, alloc: Global, drafted: &Command) -> View
    requires { IsTrue (is_well_made sha256 drafted.now) }
{
    let mut store = committed(rt, alloc);
    let Command::Commit(_) = drafted else {
        panic!(rt; "it is a commit");
    };
    let Ok((draft, view)) = store.open_draft(alloc, 1, drafted) else {
        panic!(rt; "a draft is opened");
    };
    store.drop_draft(draft);
    drop(store);
    view
}

/// What a view of a store of one commit counts that is held while a branch is made, what the store
/// counts after, and whether the view still has all of the commit.
fn held<R: Abort>(
    rt: &R,
    alloc: Global,
    drafted: &Command,
    created: &Command,
) -> (Counts, Counts, bool)
    requires drafted { IsTrue (is_well_made sha256 drafted.now) }
    requires created { IsTrue (is_well_made sha256 created.now) }
{
    let mut store = committed(rt, alloc);
    let Command::Commit(_) = drafted else {
        panic!(rt; "it is a commit");
    };
    let Ok((draft, view)) = store.open_draft(alloc, 1, drafted) else {
        panic!(rt; "a draft is opened");
    };
    store.drop_draft(draft);
    let Command::Create(_) = created else {
        panic!(rt; "it makes a reference");
    };
    drop(store.refer(alloc, 2, Moment::from_micros(1_000_000), created));
    let is_first = is_first(rt, alloc, view.catalogue());
    let found = (view.catalogue().counts(), store.counts(), is_first);
    drop(store);
    found
}

#[test]
fn a_view_stays_as_it_is_while_the_catalogue_is_changed(rt: HostRuntime) {
    let alloc = rt.alloc();
    let drafted = change(&rt, alloc, PUT_T2);
    let created = change(&rt, alloc, CREATE_DEV);
    let (viewed, left, is_first) = held(&rt, alloc, &drafted, &created);
    assert!(rt; is_first);
    assert!(rt; counts(&viewed, 1, 1));
    assert!(rt; counts(&left, 2, 2));
}
