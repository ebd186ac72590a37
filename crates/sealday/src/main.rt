// Replays a day of calls on a sealer, under each cipher and over each store, prints each call with its answer, and then checks and
// reads what was finished. At the end the last nonces of a register.
#![tactic(auto)]

use aes::Aes128;
use anyhow::anyhow;
use checks::sheet::CheckedSheet;
use checks::sheet::calls::check;
use chm::batch::BATCH_NONCES;
use ciphers::cipher::{BlockCipher, Permutation};
use ciphers::generic::under_key;
use ciphers::practice::Practice;
use history::calls::replay;
use history::{Call, Reply};
use method::sheet::Sheet;
use refusals::Refusal;
use speck::Speck128_256;
use std::alloc::{AllocError, Global};
use std::io;
use stores::register::Register;
use stores::register::raises::REGISTER_CAPACITY;
use stores::store::MarkStore;
use stores::strip::Strip;
use stores::supply::Supply;

// One begin more than a batch has nonces.
const LAST_BEGINS: usize = BATCH_NONCES as usize + 1;

// The part of each message that is read alone.
const PART_OFFSET: usize = 14;

const PART_LEN: usize = 12;

// Two drafts in turn, from the first raise's batch; a raise that is cut; a third draft, from the batch after it; a full strip.
fn day() -> [Call<'static>; 32] {
    [
        Call::Begin { tag_len: 16 },
        Call::Begin { tag_len: 11 },
        Call::Begin { tag_len: 12 },
        Call::Head {
            draft: 0,
            piece: b"hall 4, sheet ",
        },
        Call::Head {
            draft: 1,
            piece: b"canopy, sheet 2",
        },
        Call::Body {
            draft: 0,
            piece: b"Rafters HEA 240, ",
            room: 17,
        },
        Call::Body {
            draft: 1,
            piece: b"Purlins Z 200",
            room: 13,
        },
        Call::Head {
            draft: 0,
            piece: b"17",
        },
        Call::Body {
            draft: 0,
            piece: b"columns HEB 260, ",
            room: 18,
        },
        Call::Body {
            draft: 0,
            piece: b"columns HEB 260, ",
            room: 17,
        },
        Call::Body {
            draft: 1,
            piece: b" every 1.80 m.",
            room: 14,
        },
        Call::Head {
            draft: 2,
            piece: b"no such sheet",
        },
        Call::Body {
            draft: 0,
            piece: b"",
            room: 0,
        },
        Call::Body {
            draft: 0,
            piece: b"base plates 25 mm, four M24.",
            room: 28,
        },
        Call::Finish { draft: 0 },
        Call::Head {
            draft: 0,
            piece: b" to 19",
        },
        Call::Body {
            draft: 0,
            piece: b"Or M30.",
            room: 7,
        },
        Call::Finish { draft: 0 },
        Call::Restart(Supply {
            power: 0,
            leftover: 0x7f,
        }),
        Call::Begin { tag_len: 14 },
        Call::Begin { tag_len: 14 },
        Call::Begin { tag_len: 17 },
        Call::Body {
            draft: 1,
            piece: b" Bolts M16.",
            room: 11,
        },
        Call::Restart(Supply {
            power: 1,
            leftover: 0xff,
        }),
        Call::Begin { tag_len: 14 },
        Call::Body {
            draft: 2,
            piece: b"Bracing: two L 80x8, ",
            room: 21,
        },
        Call::Finish { draft: 1 },
        Call::Body {
            draft: 2,
            piece: b"gussets 12 mm.",
            room: 14,
        },
        Call::Finish { draft: 2 },
        Call::Restart(Supply {
            power: 1,
            leftover: 0xff,
        }),
        Call::Begin { tag_len: 16 },
        Call::Finish { draft: 3 },
    ]
}

// The cipher of a key whose bytes count up from 0.
fn keyed<C: BlockCipher + Drop>() -> anyhow::Result<C> {
    let mut key = [0u8; 32];
    for (i, byte) in key.iter_mut().enumerate() {
        *byte = i as u8;
    }
    under_key(&key[..C::key_len().min(32)]).map_err(|_| anyhow!("the key has another length"))
}

// `Call` and `Reply` are of `history`, which prints nothing, so these are functions and no Display
fn show_bytes(rt: &HostRuntime, bytes: &[u8]) -> io::Result<()> {
    for byte in bytes {
        print!(rt; "{byte:02x}")?;
    }
    Ok(())
}

fn show_text(rt: &HostRuntime, bytes: &[u8]) -> anyhow::Result<()> {
    let text = String::from_utf8_lossy(rt.alloc(), bytes)?;
    print!(rt; "'{text}'")?;
    Ok(())
}

fn show_call(rt: &HostRuntime, call: &Call<'_>) -> anyhow::Result<()> {
    match call {
        Call::Begin { tag_len } => print!(rt; "begin with a tag of {tag_len} bytes")?,
        Call::Head { draft, piece } => {
            print!(rt; "head of draft {draft}, ")?;
            show_text(rt, piece)?;
        }
        Call::Body { draft, piece, room } => {
            print!(rt; "body of draft {draft}, ")?;
            show_text(rt, piece)?;
            print!(rt; " with room for {room} bytes")?;
        }
        Call::Finish { draft } => print!(rt; "finish of draft {draft}")?,
        Call::Restart(supply) => {
            let Supply { power, leftover } = *supply;
            print!(rt; "restart with power {power} and leftover {leftover:02x}")?
        }
    }
    Ok(())
}

fn show_refusal(rt: &HostRuntime, fault: &impl Refusal) -> io::Result<()> {
    print!(rt; "refused {}", fault.number())
}

fn show_reply(rt: &HostRuntime, reply: &Option<Reply>) -> io::Result<()> {
    match reply {
        Some(Reply::Begun(Ok(draft))) => print!(rt; "draft {draft}"),
        Some(Reply::Begun(Err(fault))) => show_refusal(rt, fault),
        Some(Reply::Headed(Ok(()))) => print!(rt; "taken"),
        Some(Reply::Headed(Err(fault))) => show_refusal(rt, fault),
        Some(Reply::Wrote(Ok(bytes))) if bytes.is_empty() => print!(rt; "wrote nothing"),
        Some(Reply::Wrote(Ok(bytes))) => {
            print!(rt; "wrote ")?;
            show_bytes(rt, bytes)
        }
        Some(Reply::Wrote(Err(fault))) => show_refusal(rt, fault),
        Some(Reply::Finished(sealed)) => {
            print!(rt; "nonce {}, tag ", sealed.nonce)?;
            show_bytes(rt, sealed.tag())
        }
        Some(Reply::Restarted) => print!(rt; "restarted"),
        None => print!(rt; "no open draft"),
    }
}

// What was fed to a draft and what it wrote, both joined. Calls and replies are two lists, as the contract of `replay` has them.
#[derive(Drop)]
struct Pieces {
    header: Vec<u8>,
    ciphertext: Vec<u8>,
}

fn pieces_of(
    heap: Global,
    calls: &[Call<'_>],
    replies: &[Option<Reply>],
    wanted: usize,
) -> Result<Pieces, AllocError> {
    let mut header = Vec::new(heap);
    let mut ciphertext = Vec::new(heap);
    for (call, reply) in calls.iter().zip(replies) {
        match (call, reply) {
            (Call::Head { draft, piece }, Some(Reply::Headed(Ok(())))) if *draft == wanted => {
                header.extend_from_slice(piece)?;
            }
            (Call::Body { draft, .. }, Some(Reply::Wrote(Ok(bytes)))) if *draft == wanted => {
                ciphertext.extend_from_slice(bytes)?;
            }
            _ => {}
        }
    }
    Ok(Pieces { header, ciphertext })
}

// Reads so many bytes from an offset on, and prints them as text.
fn show_read<C: Permutation>(
    rt: &HostRuntime,
    cipher: &C,
    sheet: &CheckedSheet<'_>,
    offset: usize,
    len: usize,
) -> anyhow::Result<()> {
    print!(rt; "  {len} bytes from {offset} on: ")?;
    let mut out = vec![in rt.alloc(); 0u8; len]?;
    match sheet.read(cipher, offset, &mut out) {
        Ok(()) => show_text(rt, &out)?,
        Err(fault) => show_refusal(rt, &fault)?,
    }
    println!(rt; "")?;
    Ok(())
}

// Checks a finished seal and reads it, whole and in part, and past its end; and checks it with a tag that has one bit changed.
fn show_check<C: Permutation>(
    rt: &HostRuntime,
    cipher: &C,
    sheet: &Sheet<'_, '_>,
) -> anyhow::Result<()> {
    match check(cipher, sheet) {
        Ok(checked) => {
            print!(rt; "nonce {} under ", checked.nonce())?;
            show_text(rt, sheet.header)?;
            println!(rt; ": accepted")?;
            show_read(rt, cipher, &checked, 0, checked.len())?;
            show_read(rt, cipher, &checked, PART_OFFSET, PART_LEN)?;
            show_read(rt, cipher, &checked, checked.len(), 1)?;
        }
        Err(fault) => println!(rt; "nonce {}: refused {}", sheet.nonce, fault.number())?,
    }
    let mut tag = sheet.tag.to_vec(rt.alloc())?;
    if let Some(byte) = tag.last_mut() {
        *byte ^= 1;
    }
    print!(rt; "  with the tag ")?;
    show_bytes(rt, &tag)?;
    match check(
        cipher,
        &Sheet {
            tag: &tag,
            ..*sheet
        },
    ) {
        Ok(_) => println!(rt; ": accepted")?,
        Err(fault) => println!(rt; ": refused {}", fault.number())?,
    }
    Ok(())
}

// The calls from one on, each with its answer.
fn show_calls(
    rt: &HostRuntime,
    first: usize,
    calls: &[Call<'_>],
    replies: &[Option<Reply>],
) -> anyhow::Result<()> {
    for (call, reply) in calls.iter().zip(replies).skip(first) {
        show_call(rt, call)?;
        print!(rt; ": ")?;
        show_reply(rt, reply)?;
        println!(rt; "")?;
    }
    Ok(())
}

// The day over one cipher and one store, and then a check and some reads of every seal that it finished.
fn play<C: BlockCipher + Drop, S: MarkStore + Drop>(
    rt: &HostRuntime,
    store: S,
) -> anyhow::Result<()> {
    let heap = rt.alloc();
    let calls = day();
    let replies = replay(heap, keyed::<C>()?, store, &calls)?;
    show_calls(rt, 0, &calls, &replies)?;
    let cipher = keyed::<C>()?;
    for (call, reply) in calls.iter().zip(&replies) {
        if let (Call::Finish { draft }, Some(Reply::Finished(sealed))) = (call, reply) {
            let Pieces { header, ciphertext } = pieces_of(heap, &calls, &replies, *draft)?;
            let sheet = Sheet {
                nonce: sealed.nonce,
                header: &header,
                ciphertext: &ciphertext,
                tag: sealed.tag(),
            };
            show_check(rt, &cipher, &sheet)?;
        }
    }
    Ok(())
}

// The day over a register and over a strip, each with three marks left.
fn for_each_store<C: BlockCipher + Drop>(rt: &HostRuntime, name: &str) -> anyhow::Result<()> {
    println!(rt; "{name} over the register")?;
    let supply = Supply {
        power: 1,
        leftover: 0x7f,
    };
    play::<C, Register>(rt, Register::new(REGISTER_CAPACITY - 3, supply))?;
    println!(rt; "{name} over the strip")?;
    let mut cells = [0x00, 0xff, 0xff, 0xff];
    play::<C, Strip<'_>>(rt, Strip::new(&mut cells, supply))?;
    print!(rt; "cells ")?;
    show_bytes(rt, &cells)?;
    println!(rt; "")?;
    Ok(())
}

// The last batch there is: 1,024 begins take its nonces, and the next is refused.
fn last_batch(rt: &HostRuntime) -> anyhow::Result<()> {
    let heap = rt.alloc();
    let mut calls = vec![in heap; Call::Begin { tag_len: 16 }; LAST_BEGINS]?;
    calls.push(Call::Finish {
        draft: LAST_BEGINS - 2,
    })?;
    println!(rt; "the last batch")?;
    let supply = Supply {
        power: 2,
        leftover: 0xff,
    };
    let store = Register::new(REGISTER_CAPACITY - 1, supply);
    let replies = replay(heap, keyed::<Practice>()?, store, &calls)?;
    show_calls(rt, LAST_BEGINS - 2, &calls, &replies)
}

fn run(rt: &HostRuntime) -> anyhow::Result<()> {
    for_each_store::<Practice>(rt, "practice")?;
    for_each_store::<Aes128>(rt, "aes")?;
    for_each_store::<Speck128_256>(rt, "speck")?;
    last_batch(rt)
}

fn main(rt: HostRuntime) -> anyhow::Result<()> {
    run(&rt)
}
