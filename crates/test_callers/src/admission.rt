// Callers are admitted, refused and taken back.
use sheet_callers::{AdmitRefusal, Callers};
use sheet_values::{Name, NoMemory};
use std::alloc::Global;

// Admits a caller, and adds a line with what that comes to and how many callers there are.
fn admit(
    alloc: Global,
    callers: &mut Callers,
    key: &[u8],
    name: &[u8],
    out: &mut String,
) -> Result<(), NoMemory> {
    let (key, name) = (read(alloc, key)?, read(alloc, name)?);
    let (word, told) = match callers.admit(key, name, 7) {
        Ok(caller) => ("admitted", caller),
        Err(AdmitRefusal::KeyTaken(caller)) => ("key taken", caller),
        Err(AdmitRefusal::NameTaken(caller)) => ("name taken", caller),
        Err(AdmitRefusal::TooMany(limit)) => ("too many", limit),
        Err(AdmitRefusal::NoMemory) => ("no memory", 0),
    };
    let count = callers.count();
    write!(out, "{word} {told} of {count}\n").map_err(|_| NoMemory)
}

fn read(alloc: Global, bytes: &[u8]) -> Result<Name, NoMemory> {
    Name::read(alloc, bytes).map_err(|_| NoMemory)
}

// Adds a line with the caller of a key, and its object.
fn find(callers: &Callers, key: &[u8], out: &mut String) -> Result<(), NoMemory> {
    match callers.find_key(key) {
        Some(caller) => add_caller(caller, callers.object_of(caller), out),
        None => write!(out, "no caller\n").map_err(|_| NoMemory),
    }
}

fn add_caller(caller: u32, object: Option<u64>, out: &mut String) -> Result<(), NoMemory> {
    match object {
        Some(object) => write!(out, "caller {caller} object {object}\n").map_err(|_| NoMemory),
        None => write!(out, "caller {caller} no object\n").map_err(|_| NoMemory),
    }
}

/// An admission, and one with each refusal of a key and of a name.
pub fn add_admissions(alloc: Global, out: &mut String) -> Result<(), NoMemory> {
    let mut callers = Callers::new(alloc, Name::of(alloc, "op")?)?;
    admit(alloc, &mut callers, b"ka", b"ann", out)?;
    admit(alloc, &mut callers, b"ka", b"operator", out)?;
    admit(alloc, &mut callers, b"kb", b"operator", out)?;
    find(&callers, b"op", out)?;
    find(&callers, b"ka", out)?;
    find(&callers, b"kb", out)
}

/// An admission that is taken back, and one behind it.
pub fn add_taken_back(alloc: Global, out: &mut String) -> Result<(), NoMemory> {
    let mut callers = Callers::new(alloc, Name::of(alloc, "op")?)?;
    admit(alloc, &mut callers, b"ka", b"ann", out)?;
    if callers.count() > 1 {
        callers.take_back();
    }
    find(&callers, b"ka", out)?;
    admit(alloc, &mut callers, b"ka", b"ann", out)
}

// 4,000 callers, with keys and names of their numbers.
fn four_thousand(alloc: Global) -> Result<Callers, NoMemory> {
    let mut callers = Callers::new(alloc, Name::of(alloc, "op")?)?;
    for number in 2..4001u32 {
        let text = format!(in alloc; "{number}")?;
        let key = read(alloc, text.as_bytes())?;
        let name = read(alloc, text.as_bytes())?;
        if callers.admit(key, name, number as u64).is_err() {
            return Err(NoMemory);
        }
    }
    Ok(callers)
}

/// One caller more than there may be, and one with a key that is taken.
pub fn add_full(alloc: Global, out: &mut String) -> Result<(), NoMemory> {
    let mut callers = four_thousand(alloc)?;
    admit(alloc, &mut callers, b"4001", b"4001", out)?;
    admit(alloc, &mut callers, b"17", b"4001", out)?;
    find(&callers, b"4000", out)
}
