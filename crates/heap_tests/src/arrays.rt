ghost use Rattle.std.specs.Prelude.{◌≡◌, ℕ, ◌*◌, ◌<◌, ◌≤◌, IfOk, length};
ghost use Rattle.image_layout.specs.Checks.{Keeps};
ghost use Rattle.pm_model.specs.Plain.{device_of};
ghost use Rattle.pm_model.specs.Plans.{MayPlay, at_rest};
ghost use Rattle.image_layout.specs.Arrays as arrays;
ghost use Rattle.image_layout.specs.Arrays.{array_rule};
ghost use Rattle.heap_tests.specs.ArrayImages.{test_image, owned_image, IsReady};

use heap_palloc::{Heap, reopen};
use pm_model::{Action, Keep, Memory, NoMemory, Page, Place, Plain, Plan, fresh, play};
use seg_array::{GrowError, capacity, place_of, plan_grow};
use std::alloc::Global;
use std::process::Abort;
use std::test::Fail;

const HEADER: Place = Place(2064);

// An array without chunks, whose header stands in a block of page 4. Page 5 is free and has a word that isn't 0.
fn image(alloc: Global, segments: u32) -> Result<Vec<u64>, NoMemory>
    requires one_or_more { 1 ≤ segments }
    requires most { segments ≤ 128 }
    ensures words { IfOk result (λ words. words.items ≡ test_image segments) }
    ensures size { IfOk result (λ words. length words.items ≡ 32768 * segments) }
{
    let mut words = fresh(alloc, segments)?;
    words[4] = 17;
    words[2600] = 9;
    Ok(words)
}

fn memory(alloc: Global) -> Result<Plain, NoMemory>
    ensures { IfOk result (λ memory. device_of memory ≡ at_rest (test_image 1)) }
{
    Plain::new(alloc, image(alloc, 1)?)
}

// The growth of that array.
fn growth<M: Memory>(alloc: Global, mem: &M) -> Result<Plan, GrowError>
    requires { M.device mem.now ≡ at_rest (test_image 1) }
    ensures { IfOk result (λ plan. MayPlay 1 plan.left (M.device mem.now)) }
{
    let mut heap = reopen(alloc, mem)?;
    plan_grow(alloc, mem, &mut heap, 0, HEADER)
}

// The words that a power cut after so many actions leaves, and how many actions weren't played.
fn cut<M: Memory>(
    alloc: Global,
    mem: &mut M,
    played: u32,
    keep: Keep,
) -> Result<(Vec<u64>, u32), GrowError>
    requires { M.device mem.old ≡ at_rest (test_image 1) }
{
    let mut plan = growth(alloc, mem)?;
    play(mem, 1, &mut plan, played);
    let words = mem.choose(keep)?;
    Ok((words, plan.len()))
}

// Mends lane 0: the chunk is in page 5, and its pointer in place 2065.
fn mend(words: &mut [u64])
    requires { length words.old ≡ 32768 }
    ensures { length words.new ≡ 32768 }
{
    if words[576] == 1 {
        if words[2065] != words[578] {
            words[5] = 0;
        }
        words[576] = 0;
    }
}

// The capacity before with the chunk or without it, or the capacity after and new words of 0.
fn is_before_or_after(words: &[u64]) -> bool
    requires { length words.now ≡ 32768 }
{
    let owned = words[2065] == 4_294_969_856 && words[5] == 17;
    match words[2064] {
        0 => owned || (words[2065] == 0 && words[5] == 0),
        1 => owned && words[2560..3072].iter().all(|word| *word == 0),
        _ => false,
    }
}

fn check_cut(rt: &impl Abort, alloc: Global, played: u32, keep: Keep) -> Result<u32, GrowError> {
    let (mut words, left) = cut(alloc, &mut memory(alloc)?, played, keep)?;
    if words.len() == 32768 {
        mend(&mut words);
        assert!(rt; is_before_or_after(&words));
        assert_eq!(rt; words[2064] == 1 || left > 0, true);
    }
    Ok(left)
}

#[test]
fn a_growth_is_cut_after_each_action(rt: HostRuntime) -> Result<(), Fail> {
    let keeps = [
        Keep::Nothing,
        Keep::All,
        Keep::Mix(1),
        Keep::Mix(2),
        Keep::Mix(3),
    ];
    for keep in keeps {
        assert_eq!(rt; check_cut(&rt, rt.alloc(), 0, keep)?, 21);
        for played in 1..22 {
            assert_eq!(rt; check_cut(&rt, rt.alloc(), played, keep)?, 21 - played);
        }
    }
    Ok(())
}

// The image that a cut leaves of that growth once its chunk is allocated.
fn owned(alloc: Global) -> Result<Vec<u64>, NoMemory>
    ensures words { IfOk result (λ words. words.items ≡ owned_image) }
    ensures size { IfOk result (λ words. length words.items ≡ 32768) }
{
    let mut words = image(alloc, 1)?;
    words[5] = 17;
    words[577] = 4_294_969_361;
    words[578] = 4_294_969_856;
    words[2065] = 4_294_969_856;
    Ok(words)
}

// The growth of the array on that image.
fn growth_of_owned(alloc: Global) -> Result<Plan, GrowError> {
    let memory = Plain::new(alloc, owned(alloc)?)?;
    let mut heap = reopen(alloc, &memory)?;
    plan_grow(alloc, &memory, &mut heap, 0, HEADER)
}

// Page 5 is made 0 and published; no descriptor, pointer or word of a lane is written.
#[test]
fn an_owned_chunk_is_used_again(rt: HostRuntime) -> Result<(), Fail> {
    let (words, left) = cut(rt.alloc(), &mut memory(rt.alloc())?, 16, Keep::Nothing)?;
    assert_eq!(rt; left, 5);
    assert!(rt; words == owned(rt.alloc())?);
    let mut plan = growth_of_owned(rt.alloc())?;
    let actions = [
        Action::Punch { page: Page(5) },
        Action::Fence,
        Action::Store {
            place: HEADER,
            value: 1,
        },
        Action::Flush { line: 258 },
        Action::Fence,
    ];
    for action in actions {
        assert!(rt; plan.next() == Some(action));
    }
    assert!(rt; plan.is_empty());
    Ok(())
}

// The memory of an array without chunks, and its heap.
fn ready(alloc: Global, segments: u32) -> Result<(Plain, Heap), NoMemory>
    requires one_or_more { 1 ≤ segments }
    requires most { segments ≤ 128 }
    ensures { IfOk result (λ made. IsReady (device_of made.0) made.1) }
{
    let memory = Plain::new(alloc, image(alloc, segments)?)?;
    let heap = reopen(alloc, &memory)?;
    Ok((memory, heap))
}

// Plays all of a growth, and gives how many actions it has.
fn grow<M: Memory>(alloc: Global, memory: &mut M, heap: &mut Heap) -> Result<u32, GrowError>
    requires { IsReady (M.device memory.old) heap.old }
    ensures { IsReady (M.device memory.new) heap.new }
{
    let mut plan = plan_grow(alloc, memory, heap, 0, HEADER)?;
    let actions = plan.len();
    play(memory, 1, &mut plan, actions);
    Ok(actions)
}

// How many words the array has.
fn published<M: Memory>(rt: &impl Abort, memory: &M) -> u32
    requires { 2080 ≤ length (M.device memory.now).cached }
    ensures { result ≡ arrays.capacity (M.device memory.now).cached 2064 }
{
    let count = memory.load(HEADER);
    assert!(rt; count <= 12);
    capacity(count as u32)
}

// The place of a word of the array.
fn place<M: Memory>(rt: &impl Abort, memory: &M, index: u32) -> Place
    requires size { 2080 ≤ length (M.device memory.now).cached }
    requires rule { Keeps (M.device memory.now).cached (array_rule 2064) }
{
    assert!(rt; index < published(rt, memory));
    place_of(memory, HEADER, index)
}

// So many growths, one after the other.
fn grow_often<M: Memory>(
    alloc: Global,
    memory: &mut M,
    heap: &mut Heap,
    times: u32,
) -> Result<(), GrowError>
    requires { IsReady (M.device memory.old) heap.old }
    ensures { IsReady (M.device memory.new) heap.new }
{
    for _ in 0..times {
        grow(alloc, memory, heap)?;
    }
    Ok(())
}

// How many actions the first growth has, and a word after it.
fn first_growth(alloc: Global, at: u32) -> Result<(u32, u64), GrowError> {
    let (mut memory, mut heap) = ready(alloc, 1)?;
    let actions = grow(alloc, &mut memory, &mut heap)?;
    if at >= memory.len() {
        return Ok((actions, 0));
    }
    Ok((actions, memory.load(Place(at))))
}

#[test]
fn a_growth_publishes_a_chunk(rt: HostRuntime) {
    for (at, word) in [(2064, 1), (2065, 4_294_969_856), (5, 17), (2600, 0)] {
        assert_eq!(rt; first_growth(rt.alloc(), at), Ok((21, word)));
    }
}

// How many words the array has after so many growths on eight segments.
fn words_after(rt: &impl Abort, alloc: Global, times: u32) -> Result<u32, GrowError> {
    let (mut memory, mut heap) = ready(alloc, 8)?;
    grow_often(alloc, &mut memory, &mut heap, times)?;
    Ok(published(rt, &memory))
}

// The place of a word of the array after its twelve growths.
fn place_after(rt: &impl Abort, alloc: Global, index: u32) -> Result<Place, GrowError> {
    let (mut memory, mut heap) = ready(alloc, 8)?;
    grow_often(alloc, &mut memory, &mut heap, 12)?;
    Ok(place(rt, &memory, index))
}

// The first five chunks are in segment 0, and each other one is in a segment of its own from its second page on.
#[test]
fn twelve_growths_fill_an_array(rt: HostRuntime) {
    for (times, words) in [
        (0, Ok(0)),
        (1, Ok(512)),
        (2, Ok(1_536)),
        (3, Ok(3_584)),
        (4, Ok(7_680)),
        (5, Ok(15_872)),
        (6, Ok(32_256)),
        (7, Ok(48_640)),
        (11, Ok(114_176)),
        (12, Ok(130_560)),
        (13, Err(GrowError::ArrayFull)),
    ] {
        assert_eq!(rt; words_after(&rt, rt.alloc(), times), words);
    }
    for (index, at) in [
        (0, 2_560),
        (511, 3_071),
        (512, 3_072),
        (1_535, 4_095),
        (1_536, 4_096),
        (15_871, 18_431),
        (15_872, 33_280),
        (130_559, 246_271),
    ] {
        assert_eq!(rt; place_after(&rt, rt.alloc(), index), Ok(Place(at)));
    }
}
