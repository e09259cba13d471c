// What a point makes of its legs after a word or a tick.
ghost use Rattle.std.specs.Prelude.{◌≡◌};
ghost use Rattle.rules.specs.Judging.{aged, conclude, course_of, course_command, course_movement, course_verdict, in_order, judge, tells, timeout_message};

use crate::decision::{Command, Commands, Decision};
use crate::switches::Switches;
use legs::Position;
use records::{Message, Snapshot, Verdict};
use state::{Movement, Profile, Service, State};

// What a word or a tick makes of the movement.
#[derive(Clone, Copy)]
pub enum Course {
    // there is none
    Closed,
    // it goes on
    Open(Movement),
    // every leg shows its end
    Arrived,
    // it has reached its limit
    TimedOut,
}

impl Course {
    fn verdict(self) -> Verdict
        ensures { result ≡ course_verdict self }
    {
        match self {
            Course::Closed | Course::Open(_) => Verdict::Plain,
            Course::Arrived => Verdict::Arrived,
            Course::TimedOut => Verdict::TimedOut,
        }
    }

    // The movement that is open after it.
    fn movement(self) -> Option<Movement>
        ensures { result ≡ course_movement self }
    {
        match self {
            Course::Open(movement) => Some(movement),
            Course::Closed | Course::Arrived | Course::TimedOut => None,
        }
    }

    // A timeout leaves legs short of their end with their drives on: they are all switched off.
    fn command(self) -> Option<Command>
        ensures { result ≡ course_command self }
    {
        match self {
            Course::TimedOut => Some(Command::HaltAll),
            Course::Closed | Course::Open(_) | Course::Arrived => None,
        }
    }
}

// A movement is one tick older, or over if that is its limit.
fn aged(movement: Movement, limit: u16) -> Course
    ensures { result ≡ aged movement limit }
{
    let elapsed = movement.elapsed.saturating_add(1);
    if elapsed >= limit {
        Course::TimedOut
    } else {
        Course::Open(Movement {
            elapsed,
            ..movement
        })
    }
}

// The arrival is looked for first, so that one on the last tick is an arrival.
fn course_of(movement: Option<Movement>, limit: u16, ticking: bool, together: Position) -> Course
    ensures { result ≡ course_of movement limit ticking together }
{
    match movement {
        None => Course::Closed,
        Some(movement) if together == Position::from(movement.end) => Course::Arrived,
        Some(movement) if ticking => aged(movement, limit),
        Some(movement) => Course::Open(movement),
    }
}

// The first place is filled before the second.
fn in_order(first: Message, second: Message) -> (Message, Message)
    ensures { result ≡ in_order first second }
{
    if first == Message::Nothing {
        (second, Message::Nothing)
    } else {
        (first, second)
    }
}

fn timeout_message(course: Course, profile: Profile, up: bool) -> Message
    ensures { result ≡ timeout_message course profile up }
{
    match (course, profile) {
        (Course::TimedOut, Profile::Extended) if up => Message::Timeout,
        _ => Message::Nothing,
    }
}

// While the connection is up a position is told if it is news; an arrival is always told.
fn tells(state: State, course: Course, position: Position) -> bool
    ensures { result ≡ tells state course position }
{
    state.is_up() && (state.is_news(position) || matches!(course, Course::Arrived))
}

// What the legs have come to, told and recorded.
fn conclude(
    state: State,
    profile: Profile,
    course: Course,
    position: Position,
    off: Switches,
) -> Decision
    ensures { result ≡ conclude state profile course position off }
{
    let mut after = State {
        movement: course.movement(),
        ..state
    };
    let mut message = Message::Nothing;
    if tells(state, course, position) {
        after.told = Some(position);
        message = Message::from(position);
    }
    let timeout = timeout_message(course, profile, state.is_up());
    let (first, second) = in_order(message, timeout);
    Decision {
        state: after,
        answer: (course.verdict(), first, second),
        commands: Commands {
            off,
            then: course.command(),
        },
    }
}

// Judges the legs, after a word or a tick.
pub fn judge(state: State, service: Service, ticking: bool, legs: Snapshot) -> Decision
    ensures { result ≡ judge state service ticking legs }
{
    let together = legs.combined_position();
    let course = course_of(state.movement, service.limit, ticking, together);
    let position = service.profile.reported(together);
    conclude(
        state,
        service.profile,
        course,
        position,
        Switches::arrived(legs),
    )
}
