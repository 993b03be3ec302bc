//! A game's configuration, read as types of its own.
#![tactic(auto, unfolding(ron_lex_text::proofs::StretchLemmas::literals))]

ghost use Rattle.std.specs.Prelude.{codes};
ghost use Rattle.ron_types.specs.Rows.{table_of_struct, struct_data, struct_normal, IsStructOf};
ghost use Rattle.ron_example_program.specs.Game.{window_names, game_names};

use crate::fault::ExampleFault;
use ron::Options;
use ron::error::Result as Made;
use ron::schema::{Data, Deserialize, Schema, Schematic, Serialize};
use ron::ser::PrettyConfig;
use ron::types::{Row, from_struct, struct_data, struct_schema};
use std::alloc::Global;
use std::collections::BTreeMap;
use std::io::Read;

/// The window that a game opens.
#[derive(Drop)]
pub struct Window {
    pub width: u32,
    pub height: u32,
    pub fullscreen: bool,
}

/// What a player may set: what each key does among it, and how often one may fall, where that is bounded.
#[derive(Drop)]
pub struct Game {
    pub title: String,
    pub window: Window,
    pub keys: BTreeMap<char, String>,
    pub lives: Option<u8>,
}

type WindowFields = (u32, (u32, (bool, ())));

type GameFields = (String, (Window, (BTreeMap<char, String>, (Option<u8>, ()))));

const WINDOW: [&str; 3] = ["width", "height", "fullscreen"];

const GAME: [&str; 4] = ["title", "window", "keys", "lives"];

/// The configuration over lines, once the window is told to take the screen.
pub fn tell_game<R: Read>(alloc: Global, input: &mut R) -> Result<String, ExampleFault> {
    let options = Options::default();
    let mut game: Game = options.from_reader(alloc, input)?;
    game.window.fullscreen = true;
    let layout = PrettyConfig::new().struct_names(true).depth_limit(1);
    Ok(options.to_string_pretty(alloc, &game, layout)?)
}

impl Schematic for Window {
    ghost schema_is = { table_of_struct (codes "Window") window_names ⟦<WindowFields as Row>⟧.tables };

    ghost data = { λ w. struct_data (codes "Window") window_names (⟦<WindowFields as Row>⟧.datas (w.width, (w.height, (w.fullscreen, tt)))) };

    ghost normal = { struct_normal ⟦<WindowFields as Row>⟧.normals };

    ghost accepts = { IsStructOf (codes "Window") window_names ⟦<WindowFields as Row>⟧.accepts_named };

    fn schema(alloc: Global) -> Made<Schema> {
        struct_schema::<WindowFields>(alloc, "Window", &WINDOW)
    }
}

impl Serialize for Window {
    fn to_data(&self, alloc: Global) -> Made<Data<'_>> {
        let fields = (&self.width, (&self.height, (&self.fullscreen, ())));
        struct_data(alloc, "Window", &WINDOW, fields)
    }
}

impl<'de> Deserialize<'de> for Window {
    fn from_data(alloc: Global, from: Data<'de>) -> Made<Self> {
        let (width, (height, (fullscreen, ()))) = from_struct(alloc, "Window", &WINDOW, from)?;
        Ok(Window {
            width,
            height,
            fullscreen,
        })
    }
}

impl Schematic for Game {
    ghost schema_is = { table_of_struct (codes "Game") game_names ⟦<GameFields as Row>⟧.tables };

    ghost data = { λ g. struct_data (codes "Game") game_names (⟦<GameFields as Row>⟧.datas (g.title, (g.window, (g.keys, (g.lives, tt))))) };

    ghost normal = { struct_normal ⟦<GameFields as Row>⟧.normals };

    ghost accepts = { IsStructOf (codes "Game") game_names ⟦<GameFields as Row>⟧.accepts_named };

    fn schema(alloc: Global) -> Made<Schema> {
        struct_schema::<GameFields>(alloc, "Game", &GAME)
    }
}

impl Serialize for Game {
    fn to_data(&self, alloc: Global) -> Made<Data<'_>> {
        let fields = (&self.title, (&self.window, (&self.keys, (&self.lives, ()))));
        struct_data(alloc, "Game", &GAME, fields)
    }
}

impl<'de> Deserialize<'de> for Game {
    fn from_data(alloc: Global, from: Data<'de>) -> Made<Self> {
        let (title, (window, (keys, (lives, ())))) = from_struct(alloc, "Game", &GAME, from)?;
        Ok(Game {
            title,
            window,
            keys,
            lives,
        })
    }
}
