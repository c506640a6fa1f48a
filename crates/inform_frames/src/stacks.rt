//! The stack: what has begun and isn't finished.
ghost use Rattle.std.specs.Prelude.{◌≡◌, ◌≤◌, ◌∷◌, [], length, vec_capacity, IfSome};
ghost use Rattle.inform_meaning.specs.Frames as f;
ghost use Rattle.inform_moves.specs.Heights.{calls_open};
ghost use Rattle.inform_worlds.specs.Scopes.{scope_of};
ghost use Rattle.inform_frames.specs.Frames.{IsPlain, IsCaller, frame_of, frame_in, callers_in, caller_of, top_of, rest_of};
ghost use Rattle.inform_frames.specs.declared.stacks.TheConstants.{ROOM, CALLS};

use crate::frames::Frame;
use adv_io::Memory;
use inform_worlds::Scope;
use std::alloc::Global;

/// How many calls may be open.
pub const CALLS: usize = 200;

/// How many frames there is room for: 130 of `Main` and of each of 200 calls.
pub const ROOM: usize = 26_130;

/// A frame that was taken off: a caller's, with its scope, or any other one.
#[derive(Clone, Copy)]
pub enum Top<'a> {
    Caller(Scope<'a>),
    Plain(Frame<'a>),
}

/// The frames, and the scopes of the callers that wait in them: both from the outermost one on. It
/// has all its memory.
#[derive(Drop)]
pub struct Stack<'a> {
    frames: Vec<Frame<'a>>,
    callers: Vec<Scope<'a>>,
    pub ghost paired: { callers_in frames.items ≡ length callers.items },
    pub ghost few: { length callers.items ≤ CALLS },
    pub ghost frame_room: { ROOM ≤ vec_capacity frames },
    pub ghost caller_room: { CALLS ≤ vec_capacity callers },
}

impl<'a> Stack<'a> {
    ghost use Rattle.std.specs.Prelude.{◌<◌, ◌+◌, ◌++◌, reverse, IfOk, IfNone};
    ghost use Rattle.inform_frames.specs.Stacks.{stack_of, top_seen, IsPlainTop};

    /// No frame, and all the memory that is ever taken.
    pub fn with_room(alloc: Global) -> Result<Stack<'a>, Memory>
        ensures { IfOk result (λ stack. stack_of stack ≡ []) }
    {
        let frames = Vec::with_capacity(alloc, ROOM)?;
        let callers = Vec::with_capacity(alloc, CALLS)?;
        Ok(Stack { frames, callers })
    }

    /// How many calls are open.
    pub fn calls(&self) -> usize
        ensures value { result ≡ calls_open (stack_of self.now) }
        ensures few { result ≤ CALLS }
    {
        self.callers.len()
    }

    /// The innermost frame, if there is one.
    #[inline(always)]
    pub fn top(&self) -> Option<&Frame<'a>>
        ensures none { IfNone result (stack_of self.now ≡ []) }
        ensures top { IfSome result (λ frame. stack_of self.now
            ≡ frame_in (caller_of (top_of (stack_of self.now))) frame.now
            ∷ rest_of (stack_of self.now)) }
    {
        let size = self.frames.len();
        if size == 0 {
            return None;
        }
        Some(&self.frames[size - 1])
    }

    // The scope of the caller that waits in the innermost frame.
    #[inline(always)]
    fn caller(&self) -> &Scope<'a>
        requires { IsCaller (top_of (stack_of self.now)) }
        ensures { top_of (stack_of self.now) ≡ f.Calling (scope_of result.now) }
    {
        &self.callers[self.callers.len() - 1]
    }

    /// One more frame, which is the innermost one. No caller waits in it.
    #[inline(always)]
    pub fn push(&mut self, frame: Frame<'a>)
        requires room { length (stack_of self.old) < ROOM }
        requires plain { IsPlain frame }
        ensures { stack_of self.new ≡ frame_of frame.entry ∷ stack_of self.old }
    {
        self.frames.push_reserved(frame);
    }

    /// One more frame, which is the innermost one: a caller waits in it, and this is its scope.
    #[inline(always)]
    pub fn push_caller(&mut self, scope: Scope<'a>)
        requires room { length (stack_of self.old) < ROOM }
        requires few { calls_open (stack_of self.old) < CALLS }
        ensures { stack_of self.new ≡ f.Calling (scope_of scope.entry) ∷ stack_of self.old }
    {
        self.callers.push_reserved(scope);
        self.frames.push_reserved(Frame::Calling);
    }

    // The innermost frame goes, if there is one.
    #[inline(always)]
    fn pop(&mut self)
        ensures rest { stack_of self.new ≡ rest_of (stack_of self.old) }
    {
        match self.top() {
            None => {}
            Some(frame) => match frame {
                Frame::Calling => {
                    let _ = self.callers.pop();
                    let _ = self.frames.pop();
                }
                _ => {
                    let _ = self.frames.pop();
                }
            },
        }
    }

    /// The innermost frame is taken off, if there is one.
    pub fn take(&mut self) -> Option<Top<'a>>
        ensures none { IfNone result (stack_of self.old ≡ []) }
        ensures still { IfNone result (stack_of self.new ≡ []) }
        ensures top { IfSome result (λ top. stack_of self.old ≡ top_seen top ∷ stack_of self.new) }
        ensures plain { IfSome result IsPlainTop }
    {
        match self.top() {
            None => None,
            Some(frame) => match frame {
                Frame::Calling => {
                    let scope = *self.caller();
                    self.pop();
                    Some(Top::Caller(scope))
                }
                _ => {
                    let frame = *frame;
                    self.pop();
                    Some(Top::Plain(frame))
                }
            },
        }
    }

    /// All frames go onto another stack, the innermost first.
    pub fn move_onto(&mut self, other: &mut Stack<'a>)
        requires room { length (stack_of self.old) + length (stack_of other.old) ≤ ROOM }
        requires few { calls_open (stack_of self.old) + calls_open (stack_of other.old) ≤ CALLS }
        ensures none { stack_of self.new ≡ [] }
        ensures all { stack_of other.new ≡ reverse (stack_of self.old) ++ stack_of other.old }
    {
        'moving: loop {
            match self.take() {
                None => return,
                Some(Top::Caller(scope)) => other.push_caller(scope),
                Some(Top::Plain(frame)) => other.push(frame),
            }
        }
    }
}
