// Callers.
ghost use Rattle.std.specs.Prelude.{◌≡◌, ◌∷◌, ◌++◌, ◌<◌, ◌+◌, ◌-◌, [], length, take, None, Some, IfOk, IfSome, OnOk, OnErr};
ghost use Rattle.sheet_callers.specs.Admitting.{most_callers, Admits};
ghost use Rattle.sheet_callers.specs.Callers.{operator, new_caller, with_key, with_name, object_of, caller_at, IsWithin};
ghost use Rattle.sheet_callers.specs.Judging.{JudgesIn, IsNext};
ghost use Rattle.sheet_callers.specs.Keeping.{keeping};
ghost use Rattle.sheet_callers.specs.Sound.{AreCallers};

use crate::account::Account;
use crate::admission::AdmitRefusal;
use crate::index::Index;
use crate::judgement::Judgement;
use sheet_requests::Answer;
use sheet_values::{Name, NoMemory};
use std::alloc::Global;
use std::marker::Model;

/// How many callers there may be, the operator among them.
pub const MOST_CALLERS: u32 = 4000;

/// The callers, numbered from 1, seen as their list. The first is the operator.
///
/// Of each caller the last 16 accepted requests are kept, or all where they are fewer.
#[derive(Drop)]
pub struct Callers {
    keys: Index,
    names: Index,
    accounts: Vec<Account>,
    alloc: Global,
}

impl Model for Callers {
    ghost use Rattle.std.specs.Prelude.{List};
    ghost use Rattle.sheet_callers.specs.Callers.{Caller};
    ghost use Rattle.sheet_callers.specs.Indexed.{IsIndexed};

    ghost Value = { List Caller };

    ghost view = { λ c. c.accounts.items };

    ghost invariant = { λ c. IsIndexed c.keys c.names c.accounts.items };
}

fn bytes_of(alloc: Global, name: &Name) -> Result<Vec<u8>, NoMemory>
    ensures { IfOk result (λ bytes. bytes.items ≡ name.now) }
{
    let bytes = Vec::from_slice(alloc, name.bytes())?;
    Ok(bytes)
}

impl Callers {
    /// The operator alone, with that key; it has no object.
    pub fn new(alloc: Global, operator_key: Name) -> Result<Callers, NoMemory>
        ensures { IfOk result (λ c. c ≡ operator operator_key ∷ []) }
    {
        let name = Name::of(alloc, "operator")?;
        let mut keys = Index::new(alloc);
        let mut names = Index::new(alloc);
        let mut accounts = Vec::new(alloc);
        keys.add(bytes_of(alloc, &operator_key)?)?;
        names.add(bytes_of(alloc, &name)?)?;
        accounts.push(Account::new(alloc, operator_key, name, None)?)?;
        Ok(Callers {
            keys,
            names,
            accounts,
            alloc,
        })
    }

    /// How many there are, from 1 to 4,000. What holds of all callers is told here.
    pub fn count(&self) -> u32
        ensures count { result ≡ length self.now }
        ensures some { 0 < result }
        ensures callers { AreCallers self.now }
    {
        self.keys.len();
        self.names.len();
        self.accounts.len() as u32
    }

    /// The caller with that key, from 1 to the count; none exactly where there is none. It takes no memory.
    pub fn find_key(&self, key: &[u8]) -> Option<u32>
        ensures caller { result ≡ with_key self.now key.now }
        ensures within { IfSome result (IsWithin self.now) }
    {
        match self.keys.find(key) {
            Some(place) => Some(place as u32 + 1),
            None => None,
        }
    }

    fn find_name(&self, name: &[u8]) -> Option<u32>
        ensures { result ≡ with_name self.now name.now }
    {
        match self.names.find(name) {
            Some(place) => Some(place as u32 + 1),
            None => None,
        }
    }

    /// The caller's object; none exactly for the operator and for a number of no caller. It takes no memory.
    pub fn object_of(&self, caller: u32) -> Option<u64>
        ensures { result ≡ object_of self.now caller }
    {
        if caller == 0 {
            return None;
        }
        match self.accounts.get(caller as usize - 1) {
            Some(account) => account.object(),
            None => None,
        }
    }

    /// One more caller, for an object; its number. Nothing changes where it is refused.
    ///
    /// `KeyTaken` where a caller has the key; else `NameTaken` where one has the name; else `TooMany` where there are
    /// 4,000 callers.
    pub fn admit(&mut self, key: Name, name: Name, object: u64) -> Result<u32, AdmitRefusal>
        ensures { Admits self.old self.new key name object result }
    {
        if let Some(caller) = self.find_key(key.bytes()) {
            return Err(AdmitRefusal::KeyTaken(caller));
        }
        if let Some(caller) = self.find_name(name.bytes()) {
            return Err(AdmitRefusal::NameTaken(caller));
        }
        if self.count() >= MOST_CALLERS {
            return Err(AdmitRefusal::TooMany(MOST_CALLERS));
        }
        match self.add(key, name, object) {
            Ok(()) => Ok(self.count()),
            Err(NoMemory) => Err(AdmitRefusal::NoMemory),
        }
    }

    fn add(&mut self, key: Name, name: Name, object: u64) -> Result<(), NoMemory>
        requires key { with_key self.old key ≡ None }
        requires name { with_name self.old name ≡ None }
        requires room { length self.old < most_callers }
        ensures ok { OnOk result (self.new ≡ self.old ++ new_caller key name (Some object) ∷ []) }
        ensures err { OnErr result (self.new ≡ self.old) }
    {
        let key_bytes = bytes_of(self.alloc, &key)?;
        let name_bytes = bytes_of(self.alloc, &name)?;
        let account = Account::new(self.alloc, key, name, Some(object))?;
        self.accounts.reserve(1)?;
        self.keys.add(key_bytes)?;
        if self.names.add(name_bytes).is_err() {
            self.keys.take_back();
            return Err(NoMemory);
        }
        self.accounts.push_reserved(account);
        Ok(())
    }

    /// The last caller is gone again, where there is another one. It takes no memory.
    pub fn take_back(&mut self)
        requires { 1 < length self.old }
        ensures { self.new ≡ take (length self.old - 1) self.old }
    {
        self.keys.take_back();
        self.names.take_back();
        let _ = self.accounts.pop();
    }

    /// What a number of the caller, from 1 to the count, comes to, for a request with that line. It takes no memory.
    pub fn judge(&self, caller: u32, number: u64, line: &[u8]) -> Judgement<'_>
        requires { IsWithin self.now caller }
        ensures { JudgesIn (caller_at self.now caller) number line.now result }
    {
        self.accounts[caller as usize - 1].judge(number, line)
    }

    /// One more accepted request of the caller, with its line and its answer, is kept. Its number is the next one of that caller.
    /// It takes no memory.
    pub fn keep(&mut self, caller: u32, number: u64, line: Vec<u8>, answer: Answer)
        requires { IsNext (caller_at self.old caller) number }
        ensures kept { self.new ≡ keeping self.old caller number line.items answer }
        ensures next { IsNext (caller_at self.new caller) (number + 1) }
    {
        self.accounts[caller as usize - 1].keep(number, line, answer);
    }
}
