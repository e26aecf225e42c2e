// The calls that C links: each is the call of `capi` of that name, with the same clauses. A slice is a pointer and a length.
// Kept: a function for each name that C links, twins among them: the C interface.

#![tactic(auto)]

ghost use Rattle.std.specs.Prelude.{◌≡◌};
ghost use Rattle.engine.specs.Engine.{engine_number, engine_output};
ghost use Rattle.cipher.specs.Cipher.{cipher_number, cipher_output};
ghost use Rattle.lists.specs.Lists.{prepare_number, prepare_output};
ghost use Rattle.key_lists.specs.declared.Direction.TheVariants.{Enciphering, Deciphering};
ghost use Rattle.check_call.specs.CheckCall.{call_code};
ghost use Rattle.queue_call.specs.QueueCall.{call_queue_number, call_queue_output};
ghost use Rattle.roll_calls.specs.RollCalls.{empty_call_number, empty_call_output, enter_call_number, enter_call_roll};
ghost use Rattle.roll_calls.specs.RollCalls.{withdraw_call_number, withdraw_call_roll, change_call_number, change_call_roll};
ghost use Rattle.issue_call.specs.IssueCall.{issue_call_number, issue_call_output};
ghost use Rattle.sealing.specs.Sealing.{seal_number, seal_output, seal_scratch};
ghost use Rattle.opening.specs.Opening.{open_output, open_scratch};
ghost use Rattle.open_call.specs.OpenCall.{open_call_code};
ghost use Rattle.stage_calls.specs.StageCalls.{stage_call_number, stage_call_output, subkey_call_output};
ghost use Rattle.holder.specs.declared.Way.TheVariants.{Forward, Back};
ghost use Rattle.holder_calls.specs.HolderCalls.{make_call_number, make_call_output, step_call_number, step_call_holder};
ghost use Rattle.holder_walk_call.specs.WalkCall.{walk_call_code, walk_call_holder};
ghost use Rattle.holder_subkey_call.specs.SubkeyCall.{held_subkey_number, held_subkey_output};

// Enciphers one block.
#[unsafe(no_mangle)]
pub extern "C" fn gordzila_encipher(key: &[u8], rounds: u32, block: &[u8], out: &mut [u8]) -> u32
    ensures value { result ≡ cipher_number key.now rounds block.now out.old }
    ensures out_after { out.new ≡ cipher_output Enciphering key.now rounds block.now out.old }
{
    capi::gordzila_encipher(key, rounds, block, out)
}

// Deciphers one block.
#[unsafe(no_mangle)]
pub extern "C" fn gordzila_decipher(key: &[u8], rounds: u32, block: &[u8], out: &mut [u8]) -> u32
    ensures value { result ≡ cipher_number key.now rounds block.now out.old }
    ensures out_after { out.new ≡ cipher_output Deciphering key.now rounds block.now out.old }
{
    capi::gordzila_decipher(key, rounds, block, out)
}

// Prepares the subkey list for enciphering.
#[unsafe(no_mangle)]
pub extern "C" fn gordzila_prepare_enciphering(key: &[u8], rounds: u32, out: &mut [u8]) -> u32
    ensures value { result ≡ prepare_number key.now rounds out.old }
    ensures out_after { out.new ≡ prepare_output Enciphering key.now rounds out.old }
{
    capi::gordzila_prepare_enciphering(key, rounds, out)
}

// Prepares the subkey list for deciphering.
#[unsafe(no_mangle)]
pub extern "C" fn gordzila_prepare_deciphering(key: &[u8], rounds: u32, out: &mut [u8]) -> u32
    ensures value { result ≡ prepare_number key.now rounds out.old }
    ensures out_after { out.new ≡ prepare_output Deciphering key.now rounds out.old }
{
    capi::gordzila_prepare_deciphering(key, rounds, out)
}

// Runs the engine over a lent subkey list.
#[unsafe(no_mangle)]
pub extern "C" fn gordzila_run(list: &[u8], block: &[u8], out: &mut [u8]) -> u32
    ensures value { result ≡ engine_number list.now block.now out.old }
    ensures out_after { out.new ≡ engine_output list.now block.now out.old }
{
    capi::gordzila_run(list, block, out)
}

// Checks a grant for one size block and one right: the refusal number, or 1,000 times that right plus the contractor.
#[unsafe(no_mangle)]
pub extern "C" fn gordzila_check(
    key: &[u8],
    rounds: u32,
    roll: &[u8],
    grant: &[u8],
    size_block: u32,
    right: u32,
) -> u32
    ensures { result ≡ call_code key.now rounds roll.now grant.now size_block right }
{
    capi::gordzila_check(key, rounds, roll, grant, size_block, right)
}

// Checks a queue of grants for one size block and one right: 0 and a byte for each grant, or the refusal number.
#[unsafe(no_mangle)]
pub extern "C" fn gordzila_check_queue(
    key: &[u8],
    rounds: u32,
    roll: &[u8],
    grants: &[u8],
    size_block: u32,
    right: u32,
    answers: &mut [u8],
) -> u32
    ensures value { result ≡ call_queue_number key.now rounds roll.now grants.now size_block right
        answers.old }
    ensures answers_after { answers.new ≡ call_queue_output key.now rounds roll.now grants.now size_block right
        answers.old }
{
    capi::gordzila_check_queue(key, rounds, roll, grants, size_block, right, answers)
}

// Seals a page: 512 bytes to the output.
#[unsafe(no_mangle)]
pub extern "C" fn gordzila_seal_page(
    first_key: &[u8],
    second_key: &[u8],
    rounds: u32,
    size_block: u32,
    page_number: u16,
    payload: &[u8],
    scratch: &mut [u8],
    out: &mut [u8],
) -> u32
    ensures value { result ≡ seal_number first_key.now second_key.now rounds size_block payload.now
        scratch.old out.old }
    ensures out_after { out.new
        ≡ seal_output first_key.now second_key.now rounds size_block page_number payload.now
        scratch.old out.old }
    ensures scratch_after { scratch.new
        ≡ seal_scratch first_key.now second_key.now rounds size_block payload.now
        scratch.old out.old }
{
    capi::gordzila_seal_page(
        first_key,
        second_key,
        rounds,
        size_block,
        page_number,
        payload,
        scratch,
        out,
    )
}

// Opens a page: the refusal number, or the header's numbers with the top bit set; and the payload's 492 bytes to the output.
#[unsafe(no_mangle)]
pub extern "C" fn gordzila_open_page(
    first_key: &[u8],
    second_key: &[u8],
    rounds: u32,
    page: &[u8],
    scratch: &mut [u8],
    out: &mut [u8],
) -> u64
    ensures value { result ≡ open_call_code first_key.now second_key.now rounds page.now scratch.old
        out.old }
    ensures out_after { out.new
        ≡ open_output first_key.now second_key.now rounds page.now scratch.old out.old }
    ensures scratch_after { scratch.new
        ≡ open_scratch first_key.now second_key.now rounds page.now scratch.old out.old }
{
    capi::gordzila_open_page(first_key, second_key, rounds, page, scratch, out)
}

// The empty roll: its bytes to the output.
#[unsafe(no_mangle)]
pub extern "C" fn gordzila_empty_roll(out: &mut [u8]) -> u32
    ensures value { result ≡ empty_call_number out.old }
    ensures out_after { out.new ≡ empty_call_output out.old }
{
    capi::gordzila_empty_roll(out)
}

// Enters a contractor with a highest right.
#[unsafe(no_mangle)]
pub extern "C" fn gordzila_enter(roll: &mut [u8], contractor: u32, right: u32) -> u32
    ensures value { result ≡ enter_call_number roll.old contractor right }
    ensures roll_after { roll.new ≡ enter_call_roll roll.old contractor right }
{
    capi::gordzila_enter(roll, contractor, right)
}

// Withdraws a contractor.
#[unsafe(no_mangle)]
pub extern "C" fn gordzila_withdraw(roll: &mut [u8], contractor: u32) -> u32
    ensures value { result ≡ withdraw_call_number roll.old contractor }
    ensures roll_after { roll.new ≡ withdraw_call_roll roll.old contractor }
{
    capi::gordzila_withdraw(roll, contractor)
}

// Changes the highest right of a contractor.
#[unsafe(no_mangle)]
pub extern "C" fn gordzila_change_right(roll: &mut [u8], contractor: u32, right: u32) -> u32
    ensures value { result ≡ change_call_number roll.old contractor right }
    ensures roll_after { roll.new ≡ change_call_roll roll.old contractor right }
{
    capi::gordzila_change_right(roll, contractor, right)
}

// Issues a grant: twelve bytes to the output.
#[unsafe(no_mangle)]
pub extern "C" fn gordzila_issue(
    key: &[u8],
    rounds: u32,
    roll: &[u8],
    contractor: u32,
    size_block: u32,
    right: u32,
    out: &mut [u8],
) -> u32
    ensures value { result ≡ issue_call_number key.now rounds roll.now contractor size_block right out.old }
    ensures out_after { out.new ≡ issue_call_output key.now rounds roll.now contractor size_block right
        out.old }
{
    capi::gordzila_issue(key, rounds, roll, contractor, size_block, right, out)
}

// A key's stage n: 24 bytes, with zeros past the key's length.
#[unsafe(no_mangle)]
pub extern "C" fn gordzila_stage(key: &[u8], n: u32, out: &mut [u8]) -> u32
    ensures value { result ≡ stage_call_number 24 key.now n out.old }
    ensures out_after { out.new ≡ stage_call_output key.now n out.old }
{
    capi::gordzila_stage(key, n, out)
}

// The subkey of a key's stage n: 12 bytes.
#[unsafe(no_mangle)]
pub extern "C" fn gordzila_subkey(key: &[u8], n: u32, out: &mut [u8]) -> u32
    ensures value { result ≡ stage_call_number 12 key.now n out.old }
    ensures out_after { out.new ≡ subkey_call_output key.now n out.old }
{
    capi::gordzila_subkey(key, n, out)
}

// Makes a holder of a key at stage 0: 26 bytes.
#[unsafe(no_mangle)]
pub extern "C" fn gordzila_holder_make(key: &[u8], out: &mut [u8]) -> u32
    ensures value { result ≡ make_call_number key.now out.old }
    ensures out_after { out.new ≡ make_call_output key.now out.old }
{
    capi::gordzila_holder_make(key, out)
}

// Steps a holder forward.
#[unsafe(no_mangle)]
pub extern "C" fn gordzila_holder_forward(holder: &mut [u8]) -> u32
    ensures value { result ≡ step_call_number holder.old }
    ensures holder_after { holder.new ≡ step_call_holder Forward holder.old }
{
    capi::gordzila_holder_forward(holder)
}

// Steps a holder back.
#[unsafe(no_mangle)]
pub extern "C" fn gordzila_holder_back(holder: &mut [u8]) -> u32
    ensures value { result ≡ step_call_number holder.old }
    ensures holder_after { holder.new ≡ step_call_holder Back holder.old }
{
    capi::gordzila_holder_back(holder)
}

// Walks a holder to stage n: the refusal number, or the steps plus 1,000 for forward and 2,000 for back.
#[unsafe(no_mangle)]
pub extern "C" fn gordzila_holder_walk(holder: &mut [u8], n: u32) -> u32
    ensures value { result ≡ walk_call_code holder.old n }
    ensures holder_after { holder.new ≡ walk_call_holder holder.old n }
{
    capi::gordzila_holder_walk(holder, n)
}

// The subkey of the stage that a holder is at: 12 bytes.
#[unsafe(no_mangle)]
pub extern "C" fn gordzila_holder_subkey(holder: &[u8], out: &mut [u8]) -> u32
    ensures value { result ≡ held_subkey_number holder.now out.old }
    ensures out_after { out.new ≡ held_subkey_output holder.now out.old }
{
    capi::gordzila_holder_subkey(holder, out)
}
