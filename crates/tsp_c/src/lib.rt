//! Yokecairn's interface for C, and for languages that can call C: every argument is a number or a
//! slice of bytes. `bindings/c/tsp.h` declares the calls.
//!
//! A call on texts has no state. A handle holds an open instance, so that calls on it needn't read
//! it again. No call keeps a pointer or calls back. A call that writes a text returns the program's
//! exit status: 0 for the line `yes` or another success, 1 for the line `no`, 2 for a text with a
//! fault, 3 if memory ran out, 4 for a refused number. The text is at the start of the buffer
//! `out`, and `written` is its length. If the text doesn't fit, the status is 6, the buffer is
//! unchanged, and `written` is the length needed.
#![tactic(auto)]

ghost use Rattle.std.specs.Prelude.{◌≡◌, None};
ghost use Rattle.tsp_number.specs.declared.decimal.Point.{Point};
ghost use Rattle.tsp_c.specs.CallResult.{TellsBoundBy, TellsBy};
ghost use Rattle.tsp_c.specs.NumberCalls.{PlacesText, nth, EndsCount, EndsLengths, EndsMatrix, EndsWeights, FillsCount, FillsLengths, FillsMatrix, FillsPoints, FillsWeights, GivesDistance};
ghost use Rattle.tsp_c.specs.Opened.{BindsText, ChecksHeld, EndsSection, OfHeld, OpensText};
ghost use Rattle.tsp_c.specs.SolutionCall.{SolvesBy};
ghost use Rattle.tsp_c.specs.Texts.{BoundsBy, ChecksBy, ConvertsBy, ExplainsTexts, ShowsText, bounds_asked, certificates};

mod call_end;
mod call_result;
mod distance_call;
mod ended;
mod examples;
mod explain;
mod handle;
mod handle_calls;
mod pair_costs;
mod picked_runs;
mod point_calls;
mod solution_call;
mod text_instance;

use crate::call_result::CallResult;
use crate::distance_call::{Counts, distance_of};
use crate::ended::place;
use crate::explain::{Numbers, Texts, explained};
use crate::handle::Handle;
use crate::handle_calls::{
    bind_text, check_held, close, count_held, lengths_held, open_text, points_held, rows_held,
    weights_held,
};
use crate::pair_costs::{fill_matrix, fill_weights};
use crate::picked_runs::{Claim, bound_by, check_by, convert_by, shown};
use crate::point_calls::{fill_lengths, fill_points};
use crate::solution_call::{HintNumbers, solution_by};
use crate::text_instance::fill_count;
use std::alloc::Global;

/// The version, as 10,000 times the first number, 100 times the second, and the third.
const VERSION_NUMBER: u32 = 10100;

/// Judges a solution of an instance. `by` is 0 without a certificate, 1 with potentials, 2 with
/// branches. `flags` is a sum: with 1, the length has to be `claimed`; with 2, an instance with a
/// line that the verdict ignores is rejected, after all other reasons.
#[unsafe(no_mangle)]
pub extern "C" fn tsp_check(
    alloc: Global,
    instance: &[u8],
    solution: &[u8],
    certificate: &[u8],
    by: u32,
    claimed: i64,
    flags: u32,
    out: &mut [u8],
    written: &mut usize,
) -> u32
    ensures { PlacesText (ChecksBy by flags claimed instance.now solution.now certificate.now)
        out.old out.new written.new result }
{
    let claim = Claim { claimed, flags };
    let (answer, _) = check_by(alloc, instance, solution, certificate, by, claim);
    let status = answer.place(out, written);
    drop(answer);
    status
}

/// Like `tsp_check`, but returns the result in numbers, too.
#[unsafe(no_mangle)]
pub extern "C" fn tsp_check_result(
    alloc: Global,
    instance: &[u8],
    solution: &[u8],
    certificate: &[u8],
    by: u32,
    claimed: i64,
    flags: u32,
    call_result: &mut CallResult,
    out: &mut [u8],
    written: &mut usize,
) -> u32
    ensures { PlacesText (λ status text. ChecksBy by flags claimed instance.now solution.now certificate.now status text
        × TellsBy by flags claimed instance.now solution.now certificate.now status call_result.new)
        out.old out.new written.new result }
{
    let claim = Claim { claimed, flags };
    let (answer, numbers) = check_by(alloc, instance, solution, certificate, by, claim);
    *call_result = numbers;
    let status = answer.place(out, written);
    drop(answer);
    status
}

/// Bounds all tours or routes of an instance. `by` is 1 for potentials and 2 for branches; 3 and 4
/// are the same, but reject an instance with a line that the verdict ignores.
#[unsafe(no_mangle)]
pub extern "C" fn tsp_bound(
    alloc: Global,
    instance: &[u8],
    certificate: &[u8],
    by: u32,
    out: &mut [u8],
    written: &mut usize,
) -> u32
    ensures { PlacesText (BoundsBy (nth by bounds_asked) instance.now certificate.now) out.old out.new written.new result }
{
    let (answer, _) = bound_by(alloc, instance, certificate, by);
    let status = answer.place(out, written);
    drop(answer);
    status
}

/// Like `tsp_bound`, but returns the result in numbers, too.
#[unsafe(no_mangle)]
pub extern "C" fn tsp_bound_result(
    alloc: Global,
    instance: &[u8],
    certificate: &[u8],
    by: u32,
    call_result: &mut CallResult,
    out: &mut [u8],
    written: &mut usize,
) -> u32
    ensures { PlacesText (λ status text. BoundsBy (nth by bounds_asked) instance.now certificate.now status text
        × TellsBoundBy (nth by bounds_asked) instance.now certificate.now status call_result.new)
        out.old out.new written.new result }
{
    let (answer, numbers) = bound_by(alloc, instance, certificate, by);
    *call_result = numbers;
    let status = answer.place(out, written);
    drop(answer);
    status
}

/// Writes what `tsp show` prints for a file.
#[unsafe(no_mangle)]
pub extern "C" fn tsp_show(alloc: Global, file: &[u8], out: &mut [u8], written: &mut usize) -> u32
    ensures { PlacesText (ShowsText file.now) out.old out.new written.new result }
{
    let answer = shown(alloc, file);
    let status = answer.place(out, written);
    drop(answer);
    status
}

/// Writes a file in its normal form: 0 keeps its layout, 1 to 9 are those of `Layout::ALL`.
#[unsafe(no_mangle)]
pub extern "C" fn tsp_convert(
    alloc: Global,
    file: &[u8],
    layout: u32,
    out: &mut [u8],
    written: &mut usize,
) -> u32
    ensures { PlacesText (ConvertsBy layout file.now) out.old out.new written.new result }
{
    let answer = convert_by(alloc, file, layout);
    let status = answer.place(out, written);
    drop(answer);
    status
}

/// Reads a solution in any form, and writes it as `tsp solution` does. `form` is 0 to detect it, or
/// 1 to 10 for one of `Form`. `first` is 0 to go by the form and the numbers, 1 if nodes count from
/// 0, 2 if they count from 1. `depot` is a node, or 0 for the instance's depot. An empty `instance`
/// means that there is none.
#[unsafe(no_mangle)]
pub extern "C" fn tsp_solution(
    alloc: Global,
    solution: &[u8],
    instance: &[u8],
    form: u32,
    first: u32,
    depot: u32,
    out: &mut [u8],
    written: &mut usize,
) -> u32
    ensures { PlacesText (SolvesBy form first depot solution.now instance.now) out.old out.new written.new result }
{
    let numbers = HintNumbers { form, first, depot };
    let answer = solution_by(alloc, solution, instance, numbers);
    let status = answer.place(out, written);
    drop(answer);
    status
}

/// Explains the result of a call on texts: 0 `tsp_show`, 1 `tsp_convert`, 2 `tsp_check`, 3
/// `tsp_bound`. `number` is the layout or the kind of certificate of the call. `names` contains the
/// user's names for the texts, separated by bytes 0.
#[unsafe(no_mangle)]
pub extern "C" fn tsp_explain(
    alloc: Global,
    call: u32,
    instance: &[u8],
    solution: &[u8],
    certificate: &[u8],
    names: &[u8],
    number: u32,
    claimed: i64,
    flags: u32,
    out: &mut [u8],
    written: &mut usize,
) -> u32
    ensures { PlacesText (ExplainsTexts call number flags) out.old out.new written.new result }
{
    let numbers = Numbers {
        call,
        number,
        claimed,
        flags,
    };
    let texts = Texts {
        instance,
        solution,
        certificate,
        names,
    };
    let (status, text) = explained(alloc, numbers, texts);
    let answer = place(&text, status, out, written);
    drop(text);
    answer
}

/// Fills in how many nodes an instance has.
#[unsafe(no_mangle)]
pub extern "C" fn tsp_count(alloc: Global, instance: &[u8], count: &mut u32) -> u32
    ensures { FillsCount instance.now count.old count.new result }
{
    fill_count(alloc, instance, count).number()
}

/// Fills in the coordinates of each node, as counts of 10^-9: section 1 is NODE_COORD_SECTION, 2 is
/// DISPLAY_DATA_SECTION.
#[unsafe(no_mangle)]
pub extern "C" fn tsp_points(alloc: Global, file: &[u8], section: u32, out: &mut [i64]) -> u32
    ensures { FillsPoints file.now section out.old out.new result }
{
    fill_points(alloc, file, section, out).number()
}

/// Fills in the cost from the first node of each pair to its second.
#[unsafe(no_mangle)]
pub extern "C" fn tsp_weights(alloc: Global, instance: &[u8], pairs: &[u32], out: &mut [i64]) -> u32
    ensures { FillsWeights instance.now pairs.now out.old out.new result }
{
    fill_weights(alloc, instance, pairs, out).number()
}

/// Fills in as many whole rows of the matrix of costs as fit, from the row of a node on.
#[unsafe(no_mangle)]
pub extern "C" fn tsp_matrix(alloc: Global, instance: &[u8], first_row: u32, out: &mut [i64]) -> u32
    ensures { FillsMatrix instance.now first_row out.old out.new result }
{
    fill_matrix(alloc, instance, first_row, out).number()
}

/// Fills in the lengths of lists of nodes, each of which a 0 ends.
#[unsafe(no_mangle)]
pub extern "C" fn tsp_lengths(alloc: Global, instance: &[u8], nodes: &[u32], out: &mut [i64]) -> u32
    ensures { FillsLengths instance.now nodes.now out.old out.new result }
{
    fill_lengths(alloc, instance, nodes, out).number()
}

/// Opens a handle on the instance in a text. Frees what the handle was open on before.
#[unsafe(no_mangle)]
pub extern "C" fn tsp_open(
    alloc: Global,
    instance: &[u8],
    handle: &mut Handle,
    call_result: &mut CallResult,
) -> u32
    ensures { OpensText instance.now handle.new.loose.value call_result.new result }
{
    open_text(alloc, instance, handle, call_result).number()
}

/// Closes a handle, and frees what it was open on.
#[unsafe(no_mangle)]
pub extern "C" fn tsp_close(alloc: Global, handle: &mut Handle)
    ensures { handle.new.loose.value ≡ None }
{
    close(alloc, handle);
}

/// Binds a certificate (1 for potentials, 2 for branches) to the instance of a handle, replacing an
/// earlier one.
#[unsafe(no_mangle)]
pub extern "C" fn tsp_bind(
    alloc: Global,
    handle: &mut Handle,
    certificate: &[u8],
    by: u32,
    call_result: &mut CallResult,
) -> u32
    ensures { BindsText (nth by certificates) certificate.now handle.old.loose.value handle.new.loose.value
        call_result.new result }
{
    bind_text(alloc, handle, certificate, by, call_result).number()
}

/// Judges a solution of a handle's instance, as `tsp_check` does, with the bound certificate, if
/// any.
#[unsafe(no_mangle)]
pub extern "C" fn tsp_instance_check(
    alloc: Global,
    handle: &mut Handle,
    solution: &[u8],
    claimed: i64,
    flags: u32,
    call_result: &mut CallResult,
    out: &mut [u8],
    written: &mut usize,
) -> u32
    ensures same { handle.new.loose.value ≡ handle.old.loose.value }
    ensures places { PlacesText (λ status text. ChecksHeld handle.old.loose.value flags claimed solution.now
        status text call_result.new) out.old out.new written.new result }
{
    let (answer, numbers) = check_held(alloc, handle, solution, claimed, flags);
    *call_result = numbers;
    let status = answer.place(out, written);
    drop(answer);
    status
}

/// How many nodes the instance of a handle has.
#[unsafe(no_mangle)]
pub extern "C" fn tsp_instance_count(alloc: Global, handle: &mut Handle, count: &mut u32) -> u32
    ensures same { handle.new.loose.value ≡ handle.old.loose.value }
    ensures fills { OfHeld handle.old.loose.value (λ instance. EndsCount instance count.new result)
        count.old count.new result }
{
    count_held(alloc, handle, count).number()
}

/// Fills in coordinates of the instance of a handle, as `tsp_points` does.
#[unsafe(no_mangle)]
pub extern "C" fn tsp_instance_points(
    alloc: Global,
    handle: &mut Handle,
    section: u32,
    out: &mut [i64],
) -> u32
    ensures same { handle.new.loose.value ≡ handle.old.loose.value }
    ensures fills { OfHeld handle.old.loose.value (λ instance. EndsSection instance section out.old out.new result)
        out.old out.new result }
{
    points_held(alloc, handle, section, out).number()
}

/// Fills in costs of the instance of a handle, as `tsp_weights` does.
#[unsafe(no_mangle)]
pub extern "C" fn tsp_instance_weights(
    alloc: Global,
    handle: &mut Handle,
    pairs: &[u32],
    out: &mut [i64],
) -> u32
    ensures same { handle.new.loose.value ≡ handle.old.loose.value }
    ensures fills { OfHeld handle.old.loose.value (λ instance. EndsWeights instance pairs.now out.old out.new result)
        out.old out.new result }
{
    weights_held(alloc, handle, pairs, out).number()
}

/// Fills in rows of costs of the instance of a handle, as `tsp_matrix` does.
#[unsafe(no_mangle)]
pub extern "C" fn tsp_instance_matrix(
    alloc: Global,
    handle: &mut Handle,
    first_row: u32,
    out: &mut [i64],
) -> u32
    ensures same { handle.new.loose.value ≡ handle.old.loose.value }
    ensures fills { OfHeld handle.old.loose.value (λ instance. EndsMatrix instance first_row out.old out.new result)
        out.old out.new result }
{
    rows_held(alloc, handle, first_row, out).number()
}

/// Fills in lengths of lists of nodes of the instance of a handle, as `tsp_lengths` does.
#[unsafe(no_mangle)]
pub extern "C" fn tsp_instance_lengths(
    alloc: Global,
    handle: &mut Handle,
    nodes: &[u32],
    out: &mut [i64],
) -> u32
    ensures same { handle.new.loose.value ≡ handle.old.loose.value }
    ensures fills { OfHeld handle.old.loose.value (λ instance. EndsLengths instance nodes.now out.old out.new result)
        out.old out.new result }
{
    lengths_held(alloc, handle, nodes, out).number()
}

/// The distance between two points, whose coordinates are counts of 10^-9; -1 if there is none. The
/// kinds are 1 EUC_2D, 2 CEIL_2D, 3 MAN_2D, 4 MAX_2D, 5 ATT, 6 EUC_3D, 7 MAN_3D, 8 MAX_3D.
#[unsafe(no_mangle)]
pub extern "C" fn tsp_distance(
    kind: u32,
    ax: i64,
    ay: i64,
    az: i64,
    bx: i64,
    by: i64,
    bz: i64,
) -> i64
    ensures { let a : Point = record { x = ax; y = ay; z = az } in let b : Point = record { x = bx; y = by; z = bz } in
        GivesDistance kind a b result }
{
    let a = Counts {
        x: ax,
        y: ay,
        z: az,
    };
    let b = Counts {
        x: bx,
        y: by,
        z: bz,
    };
    distance_of(kind, a, b)
}

/// The version of the library.
#[unsafe(no_mangle)]
pub extern "C" fn tsp_version() -> u32
    ensures { result ≡ 10100 }
{
    VERSION_NUMBER
}
