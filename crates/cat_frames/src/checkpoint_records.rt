//! The records of checkpoints, under the hashes of their bytes.

ghost use Rattle.std.specs.Prelude.{◌≡◌, ◌++◌, IsTrue, None, OnOk};
ghost use Rattle.std.specs.List.{AllByRecursion, flat_map};
ghost use Rattle.sha2.specs.Sha256.{sha256};
ghost use Rattle.cat_codes.specs.Code.{follows, items_at, keys_at, last_of};
ghost use Rattle.cat_codes.specs.Read.{Reads};
ghost use Rattle.cat_model.specs.Contents.{content_code};
ghost use Rattle.cat_model.specs.Formats.{commit_code};
ghost use Rattle.cat_frames.specs.Checkpoints.{are_contents_spelled, by_hash, commits_code, contents_code, has_hash, hashed, have_hashes};

use cat_codes::fault::{FieldFault, NoMemory};
use cat_codes::field::{Field, from_bytes, write_within};
use cat_codes::reader::Reader;
use cat_codes::seq::Seq;
use cat_codes::writer::Writer;
use cat_model::commit::Commit;
use cat_model::content::Content;
use cat_names::hash::Hash;
use std::alloc::Global;

/// A record within its length, under the hash of its bytes.
#[tactic(auto, unfolding(cat_codes::specs::Code::bytes_code))]
fn read_hashed<T: Field>(from: &mut Reader<'_>, alloc: Global) -> Result<(Hash, T), FieldFault>
    ensures { Reads result from.new ((hashed sha256 T.code).at from.old) }
{
    let bytes = from.framed()?;
    let value: T = from_bytes(alloc, bytes)?;
    Ok((Hash::of(bytes), value))
}

fn write_hashed<T: Field>(
    alloc: Global,
    out: &mut Writer,
    hash: &Hash,
    value: &T,
) -> Result<(), NoMemory>
    requires { IsTrue (has_hash sha256 T.code (hash.now, value.now)) }
    ensures spelled { OnOk result
        (out.new ≡ out.old ++ (hashed sha256 T.code).spell (hash.now, value.now)) }
    ensures fits { OnOk result ((hashed sha256 T.code).Fits (hash.now, value.now)) }
{
    let _ = hash;
    write_within(alloc, out, value)
}

/// So many commits.
fn commits_in(
    from: &mut Reader<'_>,
    alloc: Global,
    count: u32,
) -> Result<Seq<(Hash, Commit)>, FieldFault>
    ensures { Reads result from.new (items_at (hashed sha256 commit_code) count from.old) }
{
    let mut commits = Seq::new(alloc);
    for _ in 0..count {
        let commit = read_hashed::<Commit>(from, alloc)?;
        commits.push(commit)?;
    }
    Ok(commits)
}

/// Commits, one after the other.
#[tactic(auto, unfolding(crate::specs::Checkpoints::commits_code, cat_codes::specs::Code::list))]
pub(crate) fn read_commits(
    from: &mut Reader<'_>,
    alloc: Global,
) -> Result<Seq<(Hash, Commit)>, FieldFault>
    ensures { Reads result from.new ((commits_code sha256).at from.old) }
{
    let count = from.u32()?;
    commits_in(from, alloc, count)
}

fn write_each_commit(
    alloc: Global,
    out: &mut Writer,
    commits: &[(Hash, Commit)],
) -> Result<(), NoMemory>
    requires { IsTrue (have_hashes sha256 commit_code commits.now) }
    ensures spelled { OnOk result
        (out.new ≡ out.old ++ flat_map (hashed sha256 commit_code).spell commits.now) }
    ensures fits { OnOk result (AllByRecursion (hashed sha256 commit_code).Fits commits.now) }
{
    for (hash, commit) in commits {
        write_hashed(alloc, out, hash, commit)?;
    }
    Ok(())
}

#[tactic(auto, unfolding(crate::specs::Checkpoints::commits_code, cat_codes::specs::Code::list))]
pub(crate) fn write_commits(
    alloc: Global,
    out: &mut Writer,
    commits: &Seq<(Hash, Commit)>,
) -> Result<(), NoMemory>
    requires { IsTrue (have_hashes sha256 commit_code commits.now) }
    ensures spelled { OnOk result (out.new ≡ out.old ++ (commits_code sha256).spell commits.now) }
    ensures fits { OnOk result ((commits_code sha256).Fits commits.now) }
{
    commits.known();
    out.u32(commits.len() as u32)?;
    write_each_commit(alloc, out, commits.as_slice())?;
    Ok(())
}

/// Whether the content's hash is above those of the others.
fn hash_is_next(contents: &[(Hash, Content)], content: &(Hash, Content)) -> bool
    ensures { result ≡ follows by_hash (last_of contents.now) content.now }
{
    match contents {
        [] => true,
        [.., last] => last.0.cmp(&content.0).is_lt(),
    }
}

/// So many contents, each hash above the one before.
fn contents_above(
    from: &mut Reader<'_>,
    alloc: Global,
    count: u32,
) -> Result<Seq<(Hash, Content)>, FieldFault>
    ensures { Reads result from.new
        (keys_at by_hash (hashed sha256 content_code) None count from.old) }
{
    let mut contents = Seq::new(alloc);
    for _ in 0..count {
        let content = read_hashed::<Content>(from, alloc)?;
        if !hash_is_next(contents.as_slice(), &content) {
            return Err(FieldFault::Range);
        }
        contents.push(content)?;
    }
    Ok(contents)
}

/// Contents whose hashes ascend, and else Range.
#[tactic(auto, unfolding(crate::specs::Checkpoints::contents_code, cat_codes::specs::Code::ascending_keys))]
pub(crate) fn read_contents(
    from: &mut Reader<'_>,
    alloc: Global,
) -> Result<Seq<(Hash, Content)>, FieldFault>
    ensures { Reads result from.new ((contents_code sha256).at from.old) }
{
    let count = from.u32()?;
    contents_above(from, alloc, count)
}

fn write_each_content(
    alloc: Global,
    out: &mut Writer,
    contents: &[(Hash, Content)],
) -> Result<(), NoMemory>
    requires { IsTrue (have_hashes sha256 content_code contents.now) }
    ensures spelled { OnOk result
        (out.new ≡ out.old ++ flat_map (hashed sha256 content_code).spell contents.now) }
    ensures fits { OnOk result (AllByRecursion (hashed sha256 content_code).Fits contents.now) }
{
    for (hash, content) in contents {
        write_hashed(alloc, out, hash, content)?;
    }
    Ok(())
}

#[tactic(auto, using(crate::proofs::Rewritten::contents_ascend, crate::proofs::Rewritten::contents_hashed), unfolding(crate::specs::Checkpoints::contents_code, cat_codes::specs::Code::ascending_keys))]
pub(crate) fn write_contents(
    alloc: Global,
    out: &mut Writer,
    contents: &Seq<(Hash, Content)>,
) -> Result<(), NoMemory>
    requires { IsTrue (are_contents_spelled sha256 contents.now) }
    ensures spelled { OnOk result (out.new ≡ out.old ++ (contents_code sha256).spell contents.now) }
    ensures fits { OnOk result ((contents_code sha256).Fits contents.now) }
{
    contents.known();
    out.u32(contents.len() as u32)?;
    write_each_content(alloc, out, contents.as_slice())?;
    Ok(())
}
