#![tactic(auto)]

ghost use Rattle.std.specs.Prelude.{◌≡◌, true, false, ◌||◌, ◌<◌, eqb, MatchResult};
ghost use Rattle.words.specs.Fields.{SmallCall};
ghost use Rattle.tables.specs.View.{view};
ghost use Rattle.tables.specs.Top.{Top};
ghost use Rattle.tables.specs.Encode.{Canon};
ghost use Rattle.sound.specs.Clauses.{sound};
ghost use Rattle.sound.specs.Whole.{Right};
ghost use Rattle.words.specs.declared.Refusal.TheVariants.{BadWord};
ghost use Rattle.tables.specs.State.{some};
ghost use Rattle.rules.specs.Services.{code_of};
ghost use Rattle.rules.specs.Rules.{no_rights, uses, unused, region_call, known, numbered, serve};
ghost use Rattle.rules.specs.Ran.{Ran};
ghost use Rattle.rules.specs.Changes.{changed_by};
ghost use Rattle.rules.specs.Calls.{CallAnswers};

// A call: whether the table is sound, what the call word says, and its service.
use rules::{Answer, Service, Uses};
use shapes::Board;
use tables::Outcome;
use tables::masks::one_partition;
use words::call_word::CallFields;
use words::{Packed, Partition, Refusal, Rights, Slot};

#[tactic(auto, unfolding(rules::specs::Rules::no_rights))]
fn no_rights(r: Rights) -> bool
    ensures { result ≡ no_rights r }
{
    !r.read && !r.write && !r.execute
}

// The fields that the service uses.
#[tactic(auto, unfolding(rules::specs::Rules::uses))]
fn uses(service: Service) -> Uses
    ensures { uses (code_of service) ≡ some result }
{
    let no = Uses {
        p: false,
        s: false,
        u: false,
        r: false,
        l: false,
        w: false,
    };
    let p = Uses { p: true, ..no };
    let s = Uses { s: true, ..no };
    let both = Uses { s: true, ..p };
    match service {
        Service::Create => s,
        Service::Delete => p,
        Service::Prepare => both,
        Service::Collect => Uses { u: true, ..p },
        Service::Give => Uses {
            r: true,
            w: true,
            ..both
        },
        Service::Take => s,
        Service::Cut => Uses { l: true, ..s },
        Service::Merge => Uses { u: true, ..s },
        Service::Region => Uses {
            u: true,
            r: true,
            ..both
        },
        Service::ReadRegion => Uses { u: true, ..p },
        Service::Find => Uses { l: true, ..p },
        Service::Switch => p,
        Service::ClearOut => p,
        Service::Pack => p,
    }
}

// Each field that the service doesn't use is 0.
#[tactic(auto, unfolding(rules::specs::Rules::unused))]
fn unused(x: Uses, f: CallFields) -> bool
    ensures { result ≡ unused x f }
{
    (x.p || f.partition.0 == 0)
        && (x.s || f.slot.0 == 0)
        && (x.u || f.other == 0)
        && (x.r || no_rights(f.rights))
        && (x.l || f.line.0 == 0)
        && (x.w || !f.whole)
}

// Service 9: R is not above 1, and S is 0 where R is 1.
#[tactic(auto, unfolding(rules::specs::Rules::region_call))]
fn region_call(f: CallFields) -> bool
    ensures { result ≡ region_call f }
{
    !f.rights.read && !f.rights.write && (!f.rights.execute || f.slot.0 == 0)
}

// The service of a call word whose fields are in order: the number is a service's, and the fields that it doesn't use are 0.
fn named(f: CallFields) -> Result<Service, Refusal>
    ensures { MatchResult result (λ s. (code_of s ≡ f.service) × (known f ≡ true)) (λ why. (why ≡ BadWord) × (known f ≡ false)) }
{
    let service = Service::try_from(f.service)?;
    if matches!(service, Service::Region) && !region_call(f) {
        return Err(Refusal::BadWord);
    }
    if !unused(uses(service), f) {
        return Err(Refusal::BadWord);
    }
    Ok(service)
}

// Service 9: R = 1 unloads, R = 0 loads.
fn region(board: Board, t: &mut [u64; 641], f: CallFields) -> Outcome
    requires { Canon t.old × SmallCall f × Right (view t.old) }
    ensures { Ran (numbered board 9 (view t.old) f) t.old result t.new }
{
    let r = f.rights;
    if r.execute {
        return services::region_services::unload(t, f.partition, f.other);
    }
    services::region_services::load(board, t, f.partition, f.slot, f.other)
}

// The service, of such fields.
fn perform(board: Board, t: &mut [u64; 641], service: Service, f: CallFields) -> Outcome
    requires { Canon t.old × SmallCall f × Right (view t.old) }
    ensures { Ran (numbered board (code_of service) (view t.old) f) t.old result t.new }
{
    match service {
        Service::Create => services::create_service::create(t, f.slot),
        Service::Delete => services::delete_service::delete(t, f.partition),
        Service::Prepare => services::prepare_service::prepare(t, f.partition, f.slot),
        Service::Collect => services::collect_service::collect(t, f.partition, f.other),
        Service::Give => blocks::give_service::give(t, f.partition, f.slot, f.rights, f.whole),
        Service::Take => blocks::take_service::take(t, f.slot),
        Service::Cut => blocks::cut_service::cut(t, f.slot, f.line),
        Service::Merge => blocks::merge_service::merge(t, f.slot, Slot(f.other)),
        Service::Region => region(board, t, f),
        Service::ReadRegion => services::region_services::read_region(t, f.partition, f.other),
        Service::Find => services::find_service::find(t, f.partition, f.line),
        Service::Switch => services::switch_service::switch(t, f.partition),
        Service::ClearOut => services::clear_service::clear_out(t, f.partition),
        Service::Pack => services::pack::pack(t, f.partition),
    }
}

// The fields of a call word: its service, or 2 where they are not in order.
fn serve(board: Board, t: &mut [u64; 641], f: CallFields) -> Outcome
    requires { Canon t.old × SmallCall f × Right (view t.old) }
    ensures { Ran (serve board (view t.old) f) t.old result t.new }
{
    let service = named(f)?;
    perform(board, t, service, f)
}

// Whose records the service can change, as a mask: the caller's, that of P, or that of whom the slot is given to; of others all.
fn changed_by(t: &[u64; 641], caller: Partition, f: CallFields) -> u32
    requires { ((view t.now).k.current ≡ caller.0) × (caller.0 < 16) × SmallCall f }
    ensures { result ≡ changed_by f.service (view t.now).k f }
{
    let Ok(service) = Service::try_from(f.service) else {
        return 0xffff;
    };
    match service {
        Service::Give => one_partition(caller) | one_partition(f.partition),
        Service::Take => {
            let child = searching::given_to(t, caller, f.slot);
            one_partition(caller) | one_partition(child)
        }
        Service::Cut | Service::Merge => one_partition(caller),
        Service::Region | Service::Pack => one_partition(f.partition),
        Service::ReadRegion | Service::Find | Service::Switch => 0,
        Service::Create
        | Service::Delete
        | Service::Prepare
        | Service::Collect
        | Service::ClearOut => 0xffff,
    }
}

// Whether the service changes no word, whatever it answers.
fn only_reads(f: CallFields) -> bool
    ensures { result ≡ eqb f.service 11 || eqb f.service 12 }
{
    matches!(
        Service::try_from(f.service),
        Ok(Service::ReadRegion | Service::Find)
    )
}

// A call on the words of a sound table: its service, or 2 where it is none. Find and read region leave every word as it was.
pub fn serve_word(board: Board, t: &mut [u64; 641], word: u64) -> Answer
    requires { sound board t.old ≡ true }
    ensures { CallAnswers board t.old word result t.new }
{
    tables::fits(t);
    let first = tables::read::first(t);
    let caller = first.current;
    let read = CallFields::read(word);
    match read {
        Ok(f) => {
            let changed = changed_by(t, caller, f);
            let outcome = serve(board, t, f);
            let stands = only_reads(f);
            Answer {
                caller,
                outcome,
                stands,
                changed,
            }
        }
        Err(n) => Answer {
            caller,
            outcome: Err(n),
            stands: true,
            changed: 0,
        },
    }
}

// A call on the words of a table that stands in an array: `call` without its length and its copies.
pub fn call_table(board: Board, t: &mut [u64; 641], top: u32, word: u64) -> Answer
    requires { Top t.old top }
    ensures { CallAnswers board t.old word result t.new }
{
    if !decide::is_sound(board, t, top) {
        return Answer {
            caller: Partition(0),
            outcome: Err(Refusal::NotSound),
            stands: true,
            changed: 0,
        };
    }
    serve_word(board, t, word)
}

// Carries out a call word. Any words, of any number and content, and any call word get an answer.
// Refused: 1 not a sound table of 641 words; 2 not a call word; then as its service says. A refusal changes no word.
pub fn call(board: Board, t: &mut [u64], word: u64) -> Answer
    ensures { CallAnswers board t.old word result t.new }
{
    if t.len() != 641 {
        return Answer {
            caller: Partition(0),
            outcome: Err(Refusal::NotSound),
            stands: true,
            changed: 0,
        };
    }
    let mut a = [0u64; 641];
    tables::copies::copy_in(t, &mut a);
    let answer = call_table(board, &mut a, 16, word);
    if answer.stands {
        return answer;
    }
    tables::copies::copy_out(&a, t);
    answer
}
