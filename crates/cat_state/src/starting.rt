//! Catalogues that a log starts from.

ghost use Rattle.std.specs.Prelude.{◌≡◌, ◌≤◌, ◌∷◌, [], ◌&&◌, IfOk, IfSome, IsTrue, None, false, is_some, length, max, nat_le, reverse};
ghost use Rattle.std.specs.List.{list_all};
ghost use Rattle.sha2.specs.Sha256.{sha256};
ghost use Rattle.cat_codes.specs.Code.{keys_ascend};
ghost use Rattle.cat_frames.specs.Bases.{state_in};
ghost use Rattle.cat_frames.specs.Checkpoints.{by_hash};
ghost use Rattle.cat_model.specs.Chain.{entries};
ghost use Rattle.cat_frames.specs.Standing.{has_main, knows, shows_present};
ghost use Rattle.cat_model.specs.State.{content_at};
ghost use Rattle.cat_state.specs.Starting.{Starts, map_above, may_be_added, may_be_map, may_be_references, may_stand};
ghost use Rattle.cat_tables.specs.References.{names_ascend};

use crate::catalogue::Catalogue;
use crate::contents::find_content;
use crate::copies::copy_map;
use cat_codes::fault::NoMemory;
use cat_frames::Checkpoint;
use cat_graph::graph::Graph;
use cat_keymap::key_map::KeyMap;
use cat_keymap::maps::Maps;
use cat_model::commit::Commit;
use cat_model::content::Content;
use cat_model::limits::Limits;
use cat_model::reference::{Kind, Reference};
use cat_names::hash::Hash;
use cat_tables::batch::Batch;
use cat_tables::references::References;
use cat_tables::table::Table;
use std::alloc::Global;
use std::marker::Model;

/// The commits of a start so far, with the map at each.
#[derive(Drop)]
struct Founded {
    commits: Graph,
    maps: Maps,
}

impl Model for Founded {
    ghost use Rattle.cat_model.specs.Chain.{Commits};
    ghost use Rattle.cat_state.specs.Keeping.{AreKept};

    ghost Value = { Commits };

    ghost view = { λ f. f.commits };

    ghost invariant = { λ f. AreKept f.maps f.commits };
}

/// One value, to be put into a table.
fn alone<V: Drop>(alloc: Global, hash: Hash, value: V) -> Result<Batch<V>, NoMemory>
    ensures { IfOk result (λ batch. batch.list ≡ (hash, value) ∷ []) }
{
    let mut batch = Batch::new(alloc);
    if batch.reserve(1).is_err() {
        drop(value);
        return Err(NoMemory);
    }
    batch.push(hash, value);
    Ok(batch)
}

impl Founded {
    /// The map at a commit; an empty one at the hash that has no ancestor.
    #[tactic(auto, using(crate::proofs::Kept::map_is))]
    fn map_at(&self, hash: &Hash) -> Result<KeyMap, NoMemory>
        ensures { IfOk result (λ map. map ≡ entries self.now hash.now) }
    {
        match self.maps.get(hash) {
            None => Ok(KeyMap::empty()),
            Some(map) => Ok(copy_map(map)?),
        }
    }

    /// The map at a commit above the others, unless it may not stand in a start.
    #[tactic(auto, using(crate::proofs::Kept::well_entries))]
    fn map_above(
        &self,
        alloc: Global,
        limits: &Limits,
        commit: &Commit,
    ) -> Result<Option<KeyMap>, NoMemory>
        ensures some { IfOk result
            (λ found. IfSome found
            (λ map. (map ≡ map_above self.now commit.now)
            × IsTrue (may_be_map limits.now map))) }
        ensures none { IfOk result
            (λ found. found ≡ None
            → may_be_map limits.now (map_above self.now commit.now) ≡ false) }
    {
        let _ = &self.maps;
        let before = self.map_at(&commit.parent)?;
        let map = before.with_changes(alloc, &commit.ops)?;
        if map.stays_well_formed(&before, &commit.ops) && map.len() as u64 <= limits.keys {
            return Ok(Some(map));
        }
        Ok(None)
    }

    /// Adds a commit under its hash above the others, unless it may not stand there.
    #[tactic(auto, using(crate::proofs::Founded::may_next, crate::proofs::Founded::not_there, crate::proofs::Founded::not_next, crate::proofs::Founded::not_its_map, crate::proofs::Founded::kept_above, crate::proofs::Made::kept_distinct))]
    fn add(
        &mut self,
        alloc: Global,
        limits: &Limits,
        hash: Hash,
        commit: Commit,
    ) -> Result<bool, NoMemory>
        ensures may { IfOk result (λ b. b ≡ may_stand limits.now self.old (hash, commit)) }
        ensures added { IfOk result (λ b. IsTrue b → self.new ≡ (hash, commit) ∷ self.old) }
    {
        self.commits.known();
        if self.commits.get(&hash).is_some() || !self.commits.is_next(&hash, &commit) {
            drop(commit);
            return Ok(false);
        }
        match self.map_above(alloc, limits, &commit) {
            Ok(Some(map)) => {
                let commits = self.commits.with(alloc, alone(alloc, hash, commit)?)?;
                let maps = self.maps.with(alloc, alone(alloc, hash, map)?)?;
                self.commits = commits;
                self.maps = maps;
                Ok(true)
            }
            Ok(None) => {
                drop(commit);
                Ok(false)
            }
            Err(_) => {
                drop(commit);
                Err(NoMemory)
            }
        }
    }
}

/// The commits of a start, the oldest first, with the map at each, unless they may not stand so.
#[tactic(auto, using(crate::proofs::Founded::added_next, crate::proofs::Founded::added_never, crate::proofs::Sorted::moved_one))]
fn found_catalogue(
    alloc: Global,
    limits: &Limits,
    commits: Vec<(Hash, Commit)>,
) -> Result<Option<Founded>, NoMemory>
    ensures some { IfOk result
        (λ found. IfSome found
        (λ f. (f ≡ reverse commits.items)
        × IsTrue (may_be_added limits.now [] commits.items))) }
    ensures none { IfOk result
        (λ found. found ≡ None → may_be_added limits.now [] commits.items ≡ false) }
{
    let mut founded = Founded {
        commits: Graph::new(alloc),
        maps: Maps::new(alloc),
    };
    for (hash, commit) in commits {
        if !founded.add(alloc, limits, hash, commit)? {
            return Ok(None);
        }
    }
    Ok(Some(founded))
}

/// Contents whose hashes ascend.
#[tactic(auto, using(crate::proofs::Sorted::next_absent, crate::proofs::Sorted::moved_one))]
fn holding(alloc: Global, contents: Vec<(Hash, Content)>) -> Result<Table<Content>, NoMemory>
    requires { IsTrue (keys_ascend by_hash None contents.items) }
    ensures { IfOk result (λ table. table ≡ reverse contents.items) }
{
    let mut batch = Batch::new(alloc);
    batch.reserve(contents.len())?;
    for (hash, content) in contents {
        batch.push(hash, content);
    }
    batch.known();
    Table::new(alloc).with(alloc, batch)
}

/// Whether `main` is there, and is a branch.
fn has_main(references: &References) -> bool
    ensures { result ≡ has_main references.now }
{
    let mut rest = references.walk();
    while let Some(reference) = rest.next() {
        if reference.name.as_str() == "main" {
            return reference.kind == Kind::Branch;
        }
    }
    false
}

/// Whether each content that is visible in a map is there.
fn shows(contents: &Table<Content>, map: &KeyMap) -> bool
    ensures { result
        ≡ list_all (λ x. is_some (content_at contents.now x.1.hash)) map.now }
{
    let mut rest = map.walk();
    while let Some((_, entry)) = rest.next() {
        if find_content(contents, &entry.hash).is_none() {
            return false;
        }
    }
    true
}

/// Whether a reference points at a commit that is known, where each content that is visible is
/// there.
fn may_point(
    founded: &Founded,
    contents: &Table<Content>,
    reference: &Reference,
) -> Result<bool, NoMemory>
    ensures { IfOk result
        (λ b. b
        ≡ (knows sha256 founded.now reference.now.head
        && shows_present founded.now contents.now reference.now)) }
{
    if !founded.commits.is_known(&reference.head) {
        return Ok(false);
    }
    let map = founded.map_at(&reference.head)?;
    Ok(shows(contents, &map))
}

/// Whether references may be those of a start.
#[tactic(auto, using(crate::proofs::Founding::all_two))]
fn may_be_references(
    founded: &Founded,
    contents: &Table<Content>,
    references: &References,
) -> Result<bool, NoMemory>
    ensures { IfOk result
        (λ b. b ≡ may_be_references founded.now contents.now references.now) }
{
    if !has_main(references) {
        return Ok(false);
    }
    let mut rest = references.walk();
    while let Some(reference) = rest.next() {
        if !may_point(founded, contents, reference)? {
            return Ok(false);
        }
    }
    Ok(true)
}

/// Whether a checkpoint has no more than the limits say, but for the keys at its commits.
fn is_within(limits: &Limits, checkpoint: &Checkpoint) -> bool
    ensures { result
        ≡ (nat_le (length checkpoint.now.references) (max 1 limits.now.references)
        && nat_le checkpoint.now.place limits.now.log
        && nat_le (length checkpoint.now.commits) limits.now.commits
        && nat_le (length checkpoint.now.contents) limits.now.contents) }
{
    let references = checkpoint.references.len() as u64 <= limits.references.max(1);
    let place = u64::from(checkpoint.place) <= limits.log;
    let commits = checkpoint.commits.len() as u64 <= limits.commits;
    let contents = checkpoint.contents.len() as u64 <= limits.contents;
    references && place && commits && contents
}

impl Catalogue {
    /// The catalogue that a checkpoint tells of, unless a log may not start from it: where it isn't
    /// as each catalogue is that entries lead to, or passes a limit.
    #[tactic(auto, using(crate::proofs::Founding::catalogue_found, crate::proofs::Founding::refused_size, crate::proofs::Founding::refused_commits, crate::proofs::Founding::refused_references, crate::proofs::Founding::starts_all))]
    pub fn from_checkpoint(
        alloc: Global,
        limits: Limits,
        checkpoint: Checkpoint,
    ) -> Result<Option<Catalogue>, NoMemory>
        requires log { limits.log ≤ 4294967295 }
        requires commits { limits.commits ≤ 4294967295 }
        requires names { IsTrue (names_ascend checkpoint.references) }
        requires hashes { IsTrue (keys_ascend by_hash None checkpoint.contents) }
        ensures { IfOk result (Starts (state_in limits checkpoint)) }
    {
        if !is_within(&limits, &checkpoint) {
            drop(checkpoint);
            return Ok(None);
        }
        let Checkpoint {
            place,
            references,
            commits,
            contents,
            ..
        } = checkpoint;
        let references = References::of(alloc, references)?;
        let contents = holding(alloc, contents.into_vec())?;
        let Some(founded) = found_catalogue(alloc, &limits, commits.into_vec())? else {
            return Ok(None);
        };
        if !may_be_references(&founded, &contents, &references)? {
            return Ok(None);
        }
        let Founded { commits, maps } = founded;
        Ok(Some(Catalogue {
            place,
            references,
            commits,
            maps,
            contents,
            limits,
        }))
    }
}
