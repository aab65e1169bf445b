//! Contents and commits that calls add, each under the hash of its bytes.

ghost use Rattle.std.specs.Prelude.{◌≡◌, ◌<◌, ◌∷◌, None, Some, false, IfOk, IsTrue, OnOk, if◌then◌else◌};
ghost use Rattle.std.specs.List.{list_all};
ghost use Rattle.sha2.specs.Sha256.{sha256};
ghost use Rattle.cat_tables.specs.Tables.{value_of};
ghost use Rattle.cat_model.specs.Chain.{commit_of};
ghost use Rattle.cat_model.specs.Records.{with_commit, with_content, with_contents};
ghost use Rattle.cat_model.specs.Same.{same_hash};
ghost use Rattle.cat_model.specs.State.{content_hash, is_known, no_ancestor};
ghost use Rattle.cat_state.specs.Adding.{AreHashesOf, HasCommit, IsRecordOf, holding, keeping, with_both};
ghost use Rattle.cat_state.specs.Changing.{AreNewTo, with_additions};
ghost use Rattle.cat_state.specs.Giving.{GivesAs};
ghost use Rattle.cat_state.specs.Keeping.{IsHeldAt, MayBeAdded, is_held};

use crate::additions::Additions;
use crate::catalogue::Catalogue;
use crate::failure::Failure;
use crate::records::{NewCommit, Record, is_new};
use cat_codes::fault::NoMemory;
use cat_codes::field::to_bytes;
use cat_model::commit::Commit;
use cat_model::content::Content;
use cat_model::copies::copy_content;
use cat_names::hash::Hash;
use std::alloc::Global;

/// Takes memory for a commit and the map at it.
fn reserve(more: &mut Additions) -> Result<(), NoMemory>
    ensures commits { more.new.commits.list ≡ more.old.commits.list }
    ensures maps { more.new.maps.list ≡ more.old.maps.list }
    ensures contents { more.new.contents ≡ more.old.contents }
    ensures commit_room { OnOk result (0 < more.new.commits.spare) }
    ensures map_room { OnOk result (0 < more.new.maps.spare) }
{
    more.commits.reserve(1)?;
    more.maps.reserve(1)?;
    Ok(())
}

impl Catalogue {
    /// Whether a content is not there. Other bytes of its hash refuse it.
    fn is_new_content(
        &self,
        alloc: Global,
        more: &Additions,
        hash: Hash,
        content: &Content,
    ) -> Result<bool, Failure>
        requires { hash ≡ content_hash sha256 content.now }
        ensures step { let state = with_additions self.now more.now in
            GivesAs
            (λ b. if b then holding ((hash, content.now) ∷ state.present) state else state) result
            (with_content sha256 state content.now) }
        ensures absent { IfOk result
            (λ b. IsTrue b → value_of (with_additions self.now more.now).present hash ≡ None) }
    {
        let kept = self.content_bytes_with(alloc, more, &hash)?;
        if kept.is_none() {
            return Ok(true);
        }
        let bytes = to_bytes(alloc, content)?;
        is_new(alloc, &kept, &Record { hash, bytes })
    }

    /// Adds a content, unless it is there.
    #[tactic(auto, using(crate::proofs::Over::absent_in_front))]
    fn add_content(
        &self,
        alloc: Global,
        more: &mut Additions,
        hash: Hash,
        content: &Content,
    ) -> Result<(), Failure>
        requires hash { hash ≡ content_hash sha256 content.now }
        requires new { AreNewTo self.now more.old }
        ensures step { GivesAs (λ _. with_additions self.now more.new) result
            (with_content sha256 (with_additions self.now more.old) content.now) }
        ensures new { OnOk result (AreNewTo self.now more.new) }
        ensures commits { more.new.commits ≡ more.old.commits }
    {
        if !self.is_new_content(alloc, more, hash, content)? {
            return Ok(());
        }
        more.contents.reserve(1)?;
        more.contents.push(hash, copy_content(content)?);
        Ok(())
    }

    /// Adds contents, given their hashes, up to the first that is refused.
    fn add_contents(
        &self,
        alloc: Global,
        more: &mut Additions,
        contents: &[Content],
        hashes: &[Hash],
    ) -> Result<(), Failure>
        requires hashes { AreHashesOf hashes.now contents.now }
        requires new { AreNewTo self.now more.old }
        ensures step { GivesAs (λ _. with_additions self.now more.new) result
            (with_contents sha256 (with_additions self.now more.old) contents.now) }
        ensures new { OnOk result (AreNewTo self.now more.new) }
        ensures commits { more.new.commits ≡ more.old.commits }
    {
        for (index, content) in contents.iter().enumerate() {
            self.add_content(alloc, more, hashes[index], content)?;
        }
        Ok(())
    }

    /// Whether a commit is not there. Other bytes of its hash refuse it.
    fn is_new_commit(
        &self,
        alloc: Global,
        more: &Additions,
        commit: &Commit,
        written: &Record,
    ) -> Result<bool, Failure>
        requires { IsRecordOf commit.now written.now }
        ensures step { let state = with_additions self.now more.now in
            GivesAs
            (λ b. if b
            then keeping ((written.now.hash, commit.now) ∷ state.commits) state
            else state) result (with_commit sha256 state commit.now) }
        ensures absent { IfOk result
            (λ b. IsTrue b
            → commit_of (with_additions self.now more.now).commits written.now.hash ≡ None) }
        ensures below { IfOk result
            (λ b. IsTrue b → same_hash (no_ancestor sha256) written.now.hash ≡ false) }
        ensures known { IfOk result
            (λ b. b ≡ false
            → IsTrue (is_known sha256 (with_additions self.now more.now) written.now.hash)) }
        ensures there { IfOk result
            (λ b. b ≡ false
            → commit_of (with_additions self.now more.now).commits written.now.hash
            ≡ Some commit.now) }
    {
        let _ = commit;
        let kept = self.commit_bytes_with(alloc, more, &written.hash)?;
        is_new(alloc, &kept, written)
    }

    /// Adds a commit and the map at it under a hash that is not there.
    fn push_commit(&self, more: &mut Additions, made: NewCommit) -> Result<(), NoMemory>
        requires new { AreNewTo self.now more.old }
        requires next { MayBeAdded (with_additions self.now more.old).commits made.commit made.map }
        requires absent { commit_of (with_additions self.now more.old).commits made.written.hash
            ≡ None }
        requires below { same_hash (no_ancestor sha256) made.written.hash ≡ false }
        ensures step { let state = with_additions self.now more.old in
            OnOk result
            (with_additions self.now more.new
            ≡ keeping ((made.written.hash, made.commit) ∷ state.commits) state) }
        ensures added { OnOk result
            (HasCommit self.now more.old more.new made.written.hash made.map) }
    {
        reserve(more)?;
        let NewCommit {
            commit,
            map,
            written,
        } = made;
        more.commits.push(written.hash, commit);
        more.maps.push(written.hash, map);
        Ok(())
    }

    /// Adds a commit and the map at it, unless it is there.
    pub(crate) fn add_commit(
        &self,
        alloc: Global,
        more: &mut Additions,
        made: NewCommit,
    ) -> Result<(), Failure>
        requires new { AreNewTo self.now more.old }
        requires next { MayBeAdded (with_additions self.now more.old).commits made.commit made.map }
        requires written { IsRecordOf made.commit made.written }
        ensures step { GivesAs (λ _. with_additions self.now more.new) result
            (with_commit sha256 (with_additions self.now more.old) made.commit) }
        ensures added { OnOk result
            (HasCommit self.now more.old more.new made.written.hash made.map) }
    {
        if !self.is_new_commit(alloc, more, &made.commit, &made.written)? {
            drop(made);
            return Ok(());
        }
        self.push_commit(more, made)?;
        Ok(())
    }

    /// What contents, given their hashes, then a commit and the map at it add to it, less what is
    /// there already. Other bytes that are there under one of the hashes refuse them.
    pub fn additions_of(
        &self,
        alloc: Global,
        contents: &[Content],
        hashes: &[Hash],
        made: NewCommit,
    ) -> Result<Additions, Failure>
        requires hashes { AreHashesOf hashes.now contents.now }
        requires next { MayBeAdded self.now.commits made.commit made.map }
        requires written { IsRecordOf made.commit made.written }
        requires held { IsTrue
            (list_all (λ x. is_held self.now.present hashes.now x.1.hash) made.map) }
        ensures step { GivesAs (λ a. with_additions self.now a) result
            (with_both self.now contents.now made.commit) }
        ensures new { IfOk result (AreNewTo self.now) }
        ensures known { IfOk result
            (λ a. IsTrue (is_known sha256 (with_additions self.now a) made.written.hash)) }
        ensures held { IfOk result
            (λ a. IsHeldAt (with_additions self.now a) made.written.hash) }
    {
        let mut more = self.no_additions(alloc);
        self.add_contents(alloc, &mut more, contents, hashes)?;
        self.add_commit(alloc, &mut more, made)?;
        Ok(more)
    }
}
