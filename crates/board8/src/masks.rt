ghost use Rattle.engine.specs.Engine.{StartLent, GiveLent, TakeLent, StrikeLent};

// The line engine: a slice is a pointer and a length, `uint16_t *masks, uint64_t n`. The answer is 0 or the refusal, 21; there is no caller and no value.

#[unsafe(no_mangle)]
pub extern "C" fn ulavrepit_engine_start(masks: &mut [u16], base: u64, end: u64) -> u64
    ensures { StartLent base end masks.old result masks.new }
{
    engine::start(masks, base, end)
}

#[unsafe(no_mangle)]
pub extern "C" fn ulavrepit_engine_give(
    masks: &mut [u16],
    base: u64,
    end: u64,
    child: u64,
    from: u64,
    to: u64,
) -> u64
    ensures { GiveLent base end child from to masks.old result masks.new }
{
    engine::give(masks, base, end, child, from, to)
}

#[unsafe(no_mangle)]
pub extern "C" fn ulavrepit_engine_take(
    masks: &mut [u16],
    base: u64,
    end: u64,
    child: u64,
    from: u64,
    to: u64,
) -> u64
    ensures { TakeLent base end child from to masks.old result masks.new }
{
    engine::take(masks, base, end, child, from, to)
}

#[unsafe(no_mangle)]
pub extern "C" fn ulavrepit_engine_strike(
    masks: &mut [u16],
    base: u64,
    end: u64,
    members: u64,
) -> u64
    ensures { StrikeLent base end members masks.old result masks.new }
{
    engine::strike(masks, base, end, members)
}
