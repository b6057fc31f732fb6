// Plays a script of the garden: a world that is made up step by step, and what is said in it.
#![tactic(auto)]

ghost use Rattle.std.specs.Prelude.{◌≡◌, None, IfOk, IfSome, OnErr, OnOk};
ghost use Rattle.std.specs.Option.{option_map};
ghost use Rattle.script.specs.Script.{statement_of};
ghost use Rattle.play.specs.Scene.{view_of, Answers};
ghost use Rattle.play.specs.Plays.{LeadsOn};
ghost use Rattle.play.specs.Player.{act_fault, moments_of, runs_of, Performs, PerformsLine, Follows, FollowsLine, Starts, Shows};

mod cast;
pub mod scene;

use choice::runs::Run;
use scene::{Fault, Moment, Scene};
use script::{Statement, parse};
use std::alloc::Global;

// Does what a statement says in a world that is played.
fn act(scene: &mut Scene, statement: &Statement) -> Result<(), Fault>
    ensures answer { Answers (act_fault (view_of scene.old) statement.now) result }
    ensures same { OnErr result (scene.new ≡ scene.old) }
    ensures leads { OnOk result (LeadsOn (moments_of statement.now) (view_of scene.old) (view_of scene.new)) }
{
    match statement {
        Statement::Begin(_) => Err(Fault::SettingsAgain),
        Statement::Pass(ticks, step) => scene.pass(*ticks, *step),
        Statement::Reply(word) => scene.reply(word),
        Statement::Lie(word) => scene.lie(word),
    }
}

// Plays the lines of a script one after the other; before the settings there is no world.
#[derive(Drop)]
pub struct Player {
    scene: Option<Scene>,
}

impl Player {
    pub fn new() -> Player
        ensures empty { result.scene ≡ None }
    {
        Player { scene: None }
    }

    // The world that is played, if there is one yet.
    pub fn scene(&self) -> Option<&Scene>
        ensures value { option_map (λ x. x.now) result ≡ self.now.scene }
    {
        self.scene.as_ref()
    }

    // The runs of times that are said; none before there is a world.
    pub fn runs(&self) -> &[Run]
        ensures value { result.now ≡ runs_of (option_map view_of self.now.scene) }
    {
        self.scene().map_or(&[], Scene::runs)
    }

    // Does what a statement says before there is a world: settings begin one.
    fn begin(&mut self, alloc: Global, statement: &Statement) -> Result<Moment, Fault>
        requires { self.old.scene ≡ None }
        ensures answer { Performs None statement.now result }
        ensures same { OnErr result (self.new ≡ self.old) }
        ensures starts { Starts statement.now result (option_map view_of self.new.scene) }
        ensures shows { IfOk result (λ m. Shows (option_map view_of self.new.scene) m) }
    {
        let Statement::Begin(settings) = statement else {
            return Err(Fault::NoSettings);
        };
        let scene = Scene::new(alloc, settings)?;
        let moment = scene.moment();
        self.scene = Some(scene);
        Ok(moment)
    }

    // Does what a statement says, and says what is to be shown after it.
    fn perform(&mut self, alloc: Global, statement: &Statement) -> Result<Moment, Fault>
        ensures answer { Performs (option_map view_of self.old.scene) statement.now result }
        ensures same { OnErr result (self.new ≡ self.old) }
        ensures follows { Follows (option_map view_of self.old.scene) statement.now result (option_map view_of self.new.scene) }
        ensures starts { Starts statement.now result (option_map view_of self.new.scene) }
        ensures shows { IfOk result (λ m. Shows (option_map view_of self.new.scene) m) }
    {
        match &mut self.scene {
            Some(scene) => {
                act(scene, statement)?;
                Ok(scene.moment())
            }
            None => self.begin(alloc, statement),
        }
    }

    // Plays a line, and says what is to be shown after it if it says something, or why it is refused.
    pub fn line(&mut self, alloc: Global, line: &[u8]) -> Result<Option<Moment>, Fault>
        ensures answer { PerformsLine (option_map view_of self.old.scene) (statement_of line.now) result }
        ensures same { OnErr result (self.new ≡ self.old) }
        ensures follows { FollowsLine (option_map view_of self.old.scene) (statement_of line.now) result (option_map view_of self.new.scene) }
        ensures shows { IfOk result (λ o. IfSome o (λ m. Shows (option_map view_of self.new.scene) m)) }
    {
        match parse(line)? {
            Some(statement) => Ok(Some(self.perform(alloc, &statement)?)),
            None => Ok(None),
        }
    }
}
