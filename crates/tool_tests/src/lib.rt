// Tests of tools and toolboxes that another crate writes, with memory of their own for their replies and in memory that is lent.
#![tactic(auto)]

mod echo;
mod onward;
mod repeat;
mod through;

pub use crate::echo::Echo;
pub use crate::onward::Onward;
pub use crate::repeat::Repeat;
pub use crate::through::Through;

#[cfg(test)]
mod tests {
    use crate::echo::Echo;
    use crate::onward::Onward;
    use crate::repeat::Repeat;
    use crate::through::Through;
    use std::test::Fail;
    use toolrun::{Scope, ToolRun};
    use tools::{
        Answers, Call, Cat, Command, Failed, Lending, OwnedReply, Owning, Reply, SideBySide, Space,
        Span, Tool, Toolbox, lent, next_path,
    };
    use values::Table;

    const NO_ANSWERS: Answers<'static> = Answers {
        pool: b"",
        told: &[],
    };

    const BOTH_FOUND: Answers<'static> = Answers {
        pool: b"onetwo",
        told: &[
            Some(Span { start: 0, len: 3 }),
            Some(Span { start: 3, len: 3 }),
        ],
    };

    const NOTHING_FOUND: Answers<'static> = Answers {
        pool: b"",
        told: &[None],
    };

    const MANY_BYTES: [u8; 1025] = [97; 1025];

    // `cat`, `echo`, and `repeat` in toolboxes that pass calls on.
    const TOOLS: SideBySide<Cat, SideBySide<Echo, Through<Onward<Repeat>>>> = SideBySide {
        left: Cat,
        right: SideBySide {
            left: Echo,
            right: Through {
                toolbox: Onward { toolbox: Repeat },
            },
        },
    };

    // A call of the tool of that name.
    fn call<'c>(name: &'c [u8]) -> Call<'c> {
        Call {
            name,
            command: b"gain zero",
        }
    }

    // Whether a reply fetches this path.
    fn fetches(reply: &OwnedReply, path: &[u8]) -> bool {
        match reply {
            OwnedReply::Fetch(fetched) => fetched.as_slice() == path,
            _ => false,
        }
    }

    // Whether a reply gives this product.
    fn gives(reply: &OwnedReply, text: &[u8]) -> bool {
        match reply {
            OwnedReply::Product(product) => product.as_slice() == text,
            _ => false,
        }
    }

    // The code with which a reply fails, or 0.
    fn code(reply: &OwnedReply) -> u8 {
        match reply {
            OwnedReply::Failure(code) => *code,
            _ => 0,
        }
    }

    #[test]
    fn replies_with_memory_of_their_own(rt: HostRuntime) -> Result<(), Fail> {
        assert!(rt;
            TOOLS
                .reply(call(b"cat"), NO_ANSWERS)
                .is_some_and(|r| fetches(&r, b"gain"))
        );
        assert!(rt;
            TOOLS
                .reply(call(b"cat"), BOTH_FOUND)
                .is_some_and(|r| gives(&r, b"onetwo"))
        );
        assert!(rt;
            TOOLS
                .reply(call(b"cat"), NOTHING_FOUND)
                .is_some_and(|r| code(&r) == 1)
        );
        assert!(rt;
            TOOLS
                .reply(call(b"echo"), NO_ANSWERS)
                .is_some_and(|r| gives(&r, b"gain zero"))
        );
        assert!(rt;
            TOOLS
                .reply(call(b"repeat"), NO_ANSWERS)
                .is_some_and(|r| gives(&r, b"gain zero"))
        );
        assert!(rt; TOOLS.reply(call(b"sort"), NO_ANSWERS).is_none());
        Ok(())
    }

    #[test]
    fn versions_of_tools_of_another_crate(rt: HostRuntime) -> Result<(), Fail> {
        assert_eq!(rt; TOOLS.version(b"cat"), Some(1));
        assert_eq!(rt; TOOLS.version(b"repeat"), Some(1));
        assert_eq!(rt; TOOLS.version(b"sort"), None);
        let lending = Lending { toolbox: &TOOLS };
        assert_eq!(rt; lending.version(b"echo"), Some(1));
        assert_eq!(rt; lending.version(b"sort"), None);
        Ok(())
    }

    #[test]
    fn reply_of_1024_bytes_is_whole(rt: HostRuntime) -> Result<(), Fail> {
        let longest = Call {
            name: b"echo",
            command: &MANY_BYTES[..1024],
        };
        let too_long = Call {
            name: b"echo",
            command: &MANY_BYTES,
        };
        assert!(rt;
            TOOLS
                .reply(longest, NO_ANSWERS)
                .is_some_and(|r| gives(&r, longest.command))
        );
        assert!(rt; TOOLS.reply(too_long, NO_ANSWERS).is_none());
        Ok(())
    }

    #[test]
    fn toolbox_is_lent(rt: HostRuntime) -> Result<(), Fail> {
        let lending = Lending { toolbox: &TOOLS };
        let mut space = Space::new();
        let fetched = next_path(&lending, call(b"cat"), NO_ANSWERS, &mut space);
        assert_eq!(rt; fetched, Some(b"gain".as_slice()));
        assert_eq!(rt;
            next_path(&lending, call(b"echo"), NO_ANSWERS, &mut space),
            None
        );
        assert_eq!(rt;
            next_path(&lending, call(b"sort"), NO_ANSWERS, &mut space),
            None
        );
        Ok(())
    }

    #[test]
    fn toolbox_is_run(rt: HostRuntime) -> Result<(), Fail> {
        let table = Table::new(rt.alloc())?;
        let scope = Scope {
            table: &table,
            root: table.truth(true),
        };
        let lending = Lending { toolbox: &TOOLS };
        let mut space = Space::new();
        let mut run = ToolRun::new(rt.alloc())?;
        let fetched = match run.step(&lending, call(b"cat"), scope, &mut space) {
            Ok(Reply::Fetch(path)) => Some(path),
            _ => None,
        };
        assert_eq!(rt; fetched, Some(b"gain".as_slice()));
        let failed = match run.step(&lending, call(b"cat"), scope, &mut space) {
            Ok(Reply::Failure(code)) => Some(code),
            _ => None,
        };
        assert_eq!(rt; failed, Some(1));
        run.restart();
        let product = match run.step(&lending, call(b"echo"), scope, &mut space) {
            Ok(Reply::Product(text)) => Some(text),
            _ => None,
        };
        assert_eq!(rt; product, Some(b"gain zero".as_slice()));
        Ok(())
    }

    #[test]
    fn tool_that_replies_in_lent_memory_is_asked_as_one_that_owns(
        rt: HostRuntime,
    ) -> Result<(), Fail> {
        let command = Command {
            bytes: b"gain zero",
        };
        let cat = Owning { tool: &Cat };
        assert_eq!(rt; cat.name(), b"cat".as_slice());
        assert!(rt;
            cat.step(command, BOTH_FOUND)
                .is_ok_and(|r| gives(&r, b"onetwo"))
        );
        assert!(rt; cat.step(command, NOTHING_FOUND).is_err());
        Ok(())
    }

    #[test]
    fn copy_of_a_reply_says_the_same(rt: HostRuntime) -> Result<(), Fail> {
        let reply = Echo.reply(call(b"echo"), NO_ANSWERS);
        let copied = match &reply {
            Some(reply) => gives(&reply.clone()?, b"gain zero"),
            None => false,
        };
        assert!(rt; copied);
        Ok(())
    }

    #[test]
    fn toolboxes_that_lend_stand_side_by_side(rt: HostRuntime) -> Result<(), Fail> {
        let both = lent::SideBySide {
            left: Onward { toolbox: Repeat },
            right: Cat,
        };
        let mut space = Space::new();
        let fetched = next_path(&both, call(b"cat"), NO_ANSWERS, &mut space);
        assert_eq!(rt; fetched, Some(b"gain".as_slice()));
        assert!(rt;
            both.reply(call(b"repeat"), NO_ANSWERS)
                .is_some_and(|r| gives(&r, b"gain zero"))
        );
        Ok(())
    }

    #[test]
    fn failure_keeps_its_code(rt: HostRuntime) -> Result<(), Fail> {
        assert_eq!(rt; code(&OwnedReply::from(Failed::NothingFound)), 1);
        assert_eq!(rt; code(&OwnedReply::from(Failed::TooLong)), 2);
        Ok(())
    }
}
