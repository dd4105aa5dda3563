// The rules of the first words.
ghost use Rattle.std.specs.Prelude.{◌≡◌, ◌≤◌, length};
ghost use Rattle.image_layout.specs.Checks.{first_failing};
ghost use Rattle.image_layout.specs.EntryRules.{magic_rule, version_rule, last_rule};
ghost use Rattle.image_layout.specs.SoundRules.{latest_version_rule};

use crate::layout::MAX_COMMITS;
use pm_model::{FIRST_VERSION, MAGIC, VERSION, last_commit, magic, version};

/// The place of the magic number, where it is another.
pub fn magic_fault(words: &[u64]) -> Option<u32>
    requires { 32768 ≤ length words.now }
    ensures { result ≡ first_failing (magic_rule words.now) }
{
    let place = magic().0;
    (words[place as usize] != MAGIC).then_some(place)
}

/// The place of the version, where it is neither 1 nor 2.
pub fn version_fault(words: &[u64]) -> Option<u32>
    requires { 32768 ≤ length words.now }
    ensures { result ≡ first_failing (version_rule words.now) }
{
    let place = version().0;
    let number = words[place as usize];
    (number != FIRST_VERSION && number != VERSION).then_some(place)
}

/// The place of the version, where it isn't the latest one.
pub fn latest_version_fault(words: &[u64]) -> Option<u32>
    requires { 32768 ≤ length words.now }
    ensures { result ≡ first_failing (latest_version_rule words.now) }
{
    let place = version().0;
    (words[place as usize] != VERSION).then_some(place)
}

/// The place of the last commit number, where it is too great.
pub fn last_fault(words: &[u64]) -> Option<u32>
    requires { 32768 ≤ length words.now }
    ensures { result ≡ first_failing (last_rule words.now) }
{
    let place = last_commit().0;
    (words[place as usize] > MAX_COMMITS).then_some(place)
}
